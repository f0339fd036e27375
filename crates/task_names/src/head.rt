ghost use Rattle.std.specs.Prelude.{◌≡◌, ◌≤◌, IfSome, length, take_while};
ghost use Rattle.std.specs.Bool.{OnTrue};
ghost use Rattle.std.specs.List.{prefix_len};
ghost use Rattle.task_names.specs.Names.{CallsInHead, without_spaces};
ghost use Rattle.text_parts.specs.Numerals.{is_digit, value_of};
ghost use Rattle.text_parts.specs.Pieces.{is_space};

use text_parts::numerals::number_at;

/// How many bytes stand before the pid in a line's head.
const BEFORE_PID: usize = 17;

/// What a line's head calls a task, if it names that one.
pub(crate) fn name_in_head(line: &[u8], pid: u32) -> Option<&[u8]>
    ensures { IfSome result (λ name. CallsInHead line.now pid name.now) }
{
    if line.len() < BEFORE_PID || !is_pid(&line[BEFORE_PID..], pid) {
        return None;
    }
    Some(without_spaces(&line[1..16]))
}

/// Whether a text begins with this pid.
fn is_pid(text: &[u8], pid: u32) -> bool
    ensures { OnTrue result (pid ≡ value_of (take_while is_digit text.now)) }
{
    number_at(text).value == u64::from(pid)
}

/// A name without the spaces before it.
fn without_spaces(name: &[u8]) -> &[u8]
    ensures { result.now ≡ without_spaces name.now }
{
    &name[space_count(name)..]
}

/// How many spaces a name begins with.
#[tactic(auto, using(text_parts::proofs::Runs::prefix_within))]
fn space_count(name: &[u8]) -> usize
    ensures count { result ≡ prefix_len is_space name.now }
    ensures within { result ≤ length name.now }
{
    name.iter().take_while(|byte| **byte == b' ').count()
}
