ghost use Rattle.amount_words.specs.Amount.{Answers, amount_of};

use crate::decimal::amount_of;
use crate::fault::AmountFault;
use cfs_model::GREATEST_SETTING;
use std::str::FromStr;

/// An amount of time, at most the greatest setting.
#[derive(Clone, Copy, Debug, PartialEq, Eq)]
pub struct Amount {
    pub nanoseconds: u64,
}

impl FromStr for Amount {
    type Err = AmountFault;

    ghost use Rattle.amount_words.specs.Amount.{Answers, amount_of};

    ghost from_str_gives = { λ text. Answers (amount_of text) };

    fn from_str(text: &str) -> Result<Amount, AmountFault> {
        Amount::of_word(text.as_bytes())
    }
}

impl Amount {
    /// The amount that a word says.
    pub fn of_word(word: &[u8]) -> Result<Amount, AmountFault>
        ensures { Answers (amount_of word.now) result }
    {
        match amount_of(word) {
            None => Err(AmountFault::Unread),
            Some(nanoseconds) => within(nanoseconds),
        }
    }
}

/// An amount of so many nanoseconds, where these aren't too many.
fn within(nanoseconds: u128) -> Result<Amount, AmountFault>
    ensures { Answers (Some nanoseconds) result }
{
    if nanoseconds <= u128::from(GREATEST_SETTING) {
        Ok(Amount {
            nanoseconds: nanoseconds as u64,
        })
    } else {
        Err(AmountFault::Beyond(nanoseconds))
    }
}
