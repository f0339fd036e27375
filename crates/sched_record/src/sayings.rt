ghost use Rattle.std.specs.Prelude.{◌≡◌, ◌<◌, ◌≤◌, [], ◌∷◌, ◌++◌, All, List, None, OnErr, OnOk, false, length};
ghost use Rattle.std.specs.Prelude.{slice_index_or};
ghost use Rattle.std.proofs.Props.{props};
ghost use Rattle.cfs_model.specs.declared.policy.Policy.TheVariants.{Normal};
ghost use Rattle.sched_record.specs.Sayings.{IsAlone, IsSaid, alone_of, claim_alone, nothing_said, whole_for};

use crate::window::Saying;
use cfs_model::{Claim, ClaimSort, Memory, NO_LINE, Policy};
use std::alloc::Global;
use std::marker::Model;

/// What is said on one line: nothing or a claim on nearly each.
#[derive(Clone, Copy, Debug)]
pub(crate) enum Said {
    /// Nothing. The claim is another line's, and is written all the same: so nobody has to guess whether one is said.
    Nothing(Claim),
    OneClaim(Claim),
    /// More than that: where it stands among what is kept whole.
    More(usize),
}

impl Said {
    /// Whether more is said than a claim.
    #[inline(always)]
    pub(crate) fn is_more(self) -> bool
        ensures { result ≡ false → IsAlone self (alone_of self) }
    {
        matches!(self, Said::More(_))
    }

    /// The claim that is said alone, if one is.
    #[inline(always)]
    pub(crate) fn claim(self) -> Option<Claim>
        ensures { result ≡ alone_of self }
    {
        match self {
            Said::OneClaim(claim) => Some(claim),
            Said::Nothing(_) | Said::More(_) => None,
        }
    }
}

/// A list of what is said on lines, in little room.
#[derive(Drop)]
pub(crate) struct Sayings {
    said: Vec<Said>,
    more: Vec<Saying>,
    ghost within: { All (λ one. whole_for one ≤ length more.items) said.items } by { Prim.hlevel props },
}

impl Model for Sayings {
    ghost use Rattle.std.specs.Prelude.{List, map};
    ghost use Rattle.sched_record.specs.Sayings.{saying_of};
    ghost use Rattle.sched_record.specs.declared.window.Saying.{Saying};

    ghost Value = { List Saying };

    ghost view = { λ sayings. map (saying_of sayings.more.items) sayings.said.items };
}

/// Where nothing is said, of a task of the usual policy.
const NOTHING_SAID: Saying = Saying {
    claim: None,
    nice: None,
    charge: None,
    policy: Policy::Normal,
};

/// What stands in the place of a claim where none is said.
const NO_CLAIM: Claim = Claim {
    line: NO_LINE,
    pid: 0,
    v: 0,
    sort: ClaimSort::At,
};

impl Sayings {
    ghost use Rattle.sched_record.specs.declared.window.Saying.{Saying as SayingOf};

    /// None. Takes no memory.
    pub(crate) fn new(alloc: Global) -> Sayings
        ensures { result ≡ [] }
    {
        Sayings {
            said: Vec::new(alloc),
            more: Vec::new(alloc),
        }
    }

    /// Adds one behind the others, unless a growth is refused.
    #[inline(always)]
    pub(crate) fn push(&mut self, saying: Saying) -> Result<(), Memory>
        ensures added { OnOk result (self.new ≡ self.old ++ saying ∷ []) }
        ensures same { OnErr result (self.new ≡ self.old) }
    {
        if says_more(&saying) {
            return self.push_whole(saying);
        }
        match saying.claim {
            Some(claim) => self.push_claim(&claim, true),
            None => self.push_claim(&NO_CLAIM, false),
        }
    }

    /// Adds this claim alone behind the others, or nothing in its place, unless a growth is refused.
    #[inline(always)]
    pub(crate) fn push_claim(&mut self, claim: &Claim, is_said: bool) -> Result<(), Memory>
        ensures added { OnOk result (self.new ≡ self.old ++ claim_alone is_said claim.now ∷ []) }
        ensures same { OnErr result (self.new ≡ self.old) }
    {
        self.said.reserve(1)?;
        // Taken apart: a copy of the whole goes through the stack.
        let Claim { line, pid, v, sort } = *claim;
        let claim = Claim { line, pid, v, sort };
        self.said.push_reserved(if is_said {
            Said::OneClaim(claim)
        } else {
            Said::Nothing(claim)
        });
        Ok(())
    }

    /// The same of one that is kept whole. Out of line, as there are few.
    #[inline(never)]
    fn push_whole(&mut self, saying: Saying) -> Result<(), Memory>
        ensures added { OnOk result (self.new ≡ self.old ++ saying ∷ []) }
        ensures same { OnErr result (self.new ≡ self.old) }
    {
        let place = self.more.len();
        // Taken apart: the check knows the types of what is named.
        let Saying {
            claim,
            nice,
            charge,
            policy,
        } = saying;
        self.more.push(Saying {
            claim,
            nice,
            charge,
            policy,
        })?;
        self.said.push(Said::More(place))?;
        Ok(())
    }

    /// How many there are.
    #[inline(always)]
    pub(crate) fn len(&self) -> usize
        ensures { result ≡ length self.now }
    {
        self.said.len()
    }

    /// Takes the last one off, if there is one.
    pub(crate) fn pop(&mut self)
        ensures { (before : List Saying) (saying : Saying) → self.old ≡ before ++ saying ∷ [] → self.new ≡ before }
    {
        let _last = self.said.pop();
    }

    /// Takes all off; the room for them stays.
    pub(crate) fn clear(&mut self)
        ensures { self.new ≡ [] }
    {
        self.said.clear();
        self.more.clear();
    }

    /// What the one at an index is, as it is kept: a step is made of that with nothing copied that isn't said.
    #[inline(always)]
    pub(crate) fn said_at(&self, index: usize) -> Said
        requires { index < length self.now }
        ensures { (here : SayingOf) → here ≡ slice_index_or self.now index here → IsSaid result here }
    {
        self.said[index]
    }

    /// The one at an index.
    #[inline(always)]
    pub(crate) fn get(&self, index: usize) -> Saying
        requires { index < length self.now }
        ensures { result ≡ slice_index_or self.now index result }
    {
        match self.said[index] {
            Said::Nothing(_) => NOTHING_SAID,
            Said::OneClaim(claim) => Saying {
                claim: Some(claim),
                nice: None,
                charge: None,
                policy: Policy::Normal,
            },
            Said::More(place) => whole_at(&self.more, place),
        }
    }
}

/// The one that is kept whole at a place. Out of line, as there are few.
#[inline(never)]
fn whole_at(more: &[Saying], place: usize) -> Saying
    ensures { result ≡ slice_index_or more.now place nothing_said }
{
    match more.get(place) {
        Some(saying) => *saying,
        None => NOTHING_SAID,
    }
}

/// Whether more is said than a claim.
fn says_more(saying: &Saying) -> bool
    ensures { result ≡ false → (saying.now.nice ≡ None) × (saying.now.charge ≡ None) × (saying.now.policy ≡ Normal) }
{
    saying.nice.is_some() || saying.charge.is_some() || saying.policy != Policy::Normal
}
