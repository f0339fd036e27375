ghost use Rattle.std.specs.Prelude.{ℕ, IfSome};
ghost use Rattle.ftrace_line.specs.declared.kinds.Which.TheVariants as kinds;
ghost use Rattle.sched_event.specs.Texts.{switch, wakeup, migration};
ghost use Rattle.sched_event.specs.FieldsView.{switch_fields_view, wakeup_fields_view, migration_fields_view};
ghost use Rattle.sched_event.specs.Usual.{HasFields, HasAct, IsUsual};

use crate::fields::{fields, numeral};
use crate::migration::{MigrationFields, migration_of};
use crate::switch::{SwitchFields, switch_of};
use crate::usual_fields::{name, numeral_there, prio, state};
use crate::wakeup::{WakeupFields, wakeup_of};
use cfs_model::Act;
use ftrace_line::{RecentClocks, Which, usual_front};
use text_parts::lines::{line_end, next_line};

/// What one of the four events does, and when.
#[derive(Clone, Copy, Debug, PartialEq, Eq)]
pub struct UsualEvent {
    /// In nanoseconds.
    pub time: u64,
    pub act: Act,
}

/// What the first line of a text says, where it has the usual form.
#[derive(Clone, Copy, Debug, PartialEq, Eq)]
pub struct UsualLine<'a> {
    /// One of the four events; none where the line is another event's.
    pub event: Option<UsualEvent>,
    /// What follows the line.
    pub rest: &'a [u8],
}

/// What the first line of a text says, where it has the form that nearly all lines of recordings have: it is read from
/// its front on, and the end of the line isn't looked for first. Nothing is said of a line that has another form, or
/// that is bad.
#[inline(always)]
pub fn usual_line<'a>(text: &'a [u8], clocks: &mut RecentClocks) -> Option<UsualLine<'a>>
    ensures { IfSome result (λ usual. IsUsual text.now usual.event usual.rest.now) }
{
    let front = usual_front(text, clocks)?;
    match front.which {
        None => {
            let (_line, rest) = next_line(front.rest);
            Some(UsualLine { event: None, rest })
        }
        Some(which) => {
            let Some((act, rest)) = usual_act(front.cpu, which, front.rest) else {
                return None;
            };
            let time = front.time;
            Some(UsualLine {
                event: Some(UsualEvent { time, act }),
                rest,
            })
        }
    }
}

/// What the event does whose fields are the first line of a text, and what follows that line. Each kind is read by a
/// call of its own: all four in one would be a call too, and a larger one, whose answer is copied once more.
#[inline(always)]
fn usual_act(cpu: u32, which: Which, text: &[u8]) -> Option<(Act, &[u8])>
    ensures { IfSome result (λ x. HasAct cpu which text.now x.0 x.1.now) }
{
    match which {
        Which::Switch => switch_act(cpu, text),
        Which::Wakeup => wakeup_act(text),
        Which::WakeupNew => birth_act(text),
        Which::MigrateTask => migration_act(text),
    }
}

#[inline(never)]
fn switch_act(cpu: u32, text: &[u8]) -> Option<(Act, &[u8])>
    ensures { IfSome result (λ x. HasAct cpu kinds.Switch text.now x.0 x.1.now) }
{
    let (fields, after) = switch_front(text)?;
    let rest = line_end(after)?;
    let Ok(switch) = switch_of(cpu, &fields) else {
        return None;
    };
    Some((switch.act(), rest))
}

#[inline(never)]
fn wakeup_act(text: &[u8]) -> Option<(Act, &[u8])>
    ensures { (cpu : ℕ) → IfSome result (λ x. HasAct cpu kinds.Wakeup text.now x.0 x.1.now) }
{
    let (fields, after) = wakeup_front(text)?;
    let rest = line_end(after)?;
    let Ok(wakeup) = wakeup_of(&fields) else {
        return None;
    };
    Some((wakeup.wake(), rest))
}

#[inline(never)]
fn birth_act(text: &[u8]) -> Option<(Act, &[u8])>
    ensures { (cpu : ℕ) → IfSome result (λ x. HasAct cpu kinds.WakeupNew text.now x.0 x.1.now) }
{
    let (fields, after) = wakeup_front(text)?;
    let rest = line_end(after)?;
    let Ok(birth) = wakeup_of(&fields) else {
        return None;
    };
    Some((birth.birth(), rest))
}

#[inline(never)]
fn migration_act(text: &[u8]) -> Option<(Act, &[u8])>
    ensures { (cpu : ℕ) → IfSome result (λ x. HasAct cpu kinds.MigrateTask text.now x.0 x.1.now) }
{
    let (fields, after) = migration_front(text)?;
    let rest = line_end(after)?;
    let Ok(migration) = migration_of(&fields) else {
        return None;
    };
    Some((migration.act(), rest))
}

/// The parts of a switch at the front of a text, and what follows them.
#[inline(always)]
fn switch_front(text: &[u8]) -> Option<(SwitchFields<'_>, &[u8])>
    ensures { IfSome result (λ x. HasFields kinds.Switch text.now (switch (switch_fields_view x.0)) x.1.now) }
{
    let rest = text;
    fields!(rest;
        b"prev_comm=" => prev_name: name,
        b" prev_pid=" => prev: numeral_there,
        b" prev_prio=" => prev_prio: prio(b" prev_prio=120 p"),
        b" prev_state=" => prev_state: state,
        b" ==> next_comm=" => next_name: name,
        b" next_pid=" => next: numeral_there,
        b" next_prio=" => next_prio: prio(b" next_prio=120\n"),
    );
    Some((
        SwitchFields {
            prev_name,
            prev,
            prev_prio,
            prev_state,
            next_name,
            next,
            next_prio,
        },
        rest,
    ))
}

/// The parts of a wakeup at the front of a text, which has no field `success`, and what follows them.
#[inline(always)]
fn wakeup_front(text: &[u8]) -> Option<(WakeupFields<'_>, &[u8])>
    ensures { IfSome result (λ x. HasFields kinds.Wakeup text.now (wakeup (wakeup_fields_view x.0)) x.1.now) }
{
    let rest = text;
    fields!(rest;
        b"comm=" => task: name,
        b" pid=" => pid: numeral_there,
        b" prio=" => task_prio: prio(b" prio=120 target"),
        b" target_cpu=" => target: numeral,
    );
    Some((
        WakeupFields {
            name: task,
            pid,
            prio: task_prio,
            success: None,
            target,
        },
        rest,
    ))
}

/// The parts of a migration at the front of a text, and what follows them.
#[inline(always)]
fn migration_front(text: &[u8]) -> Option<(MigrationFields<'_>, &[u8])>
    ensures { IfSome result
        (λ x. HasFields kinds.MigrateTask text.now (migration (migration_fields_view x.0)) x.1.now) }
{
    let rest = text;
    fields!(rest;
        b"comm=" => task: name,
        b" pid=" => pid: numeral_there,
        b" prio=" => task_prio: prio(b" prio=120 orig_c"),
        b" orig_cpu=" => orig: numeral,
        b" dest_cpu=" => dest: numeral,
    );
    Some((
        MigrationFields {
            name: task,
            pid,
            prio: task_prio,
            orig,
            dest,
        },
        rest,
    ))
}
