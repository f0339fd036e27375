ghost use Rattle.std.specs.Prelude.{◌≡◌};
ghost use Rattle.text_parts.specs.Reading.{Gives};
ghost use Rattle.companion_file.specs.ShapeReading.{version_shape_at, cpus_shape_at, start_shape_at, floor_shape_at};
ghost use Rattle.companion_file.specs.ShapeReading.{task_shape_at, claim_shape_at, nice_shape_at, idle_shape_at};
ghost use Rattle.companion_file.specs.ShapeReading.{charge_shape_at, front_shape_at, shape_at};
ghost use Rattle.companion_file.specs.Statement.{stated};

use crate::fields::{integer_field, integer_whole, number_field, number_whole, place_field};
use crate::statement::Statement;
use cfs_model::ClaimSort;
use text_parts::pieces::after_front;
use text_parts::time::read_time;

/// What a line says that has one of the shapes of this version.
#[tactic(auto, unfolding(crate::specs::ShapeReading::shape_at))]
pub(crate) fn statement_of(version: u32, line: &[u8]) -> Option<Statement>
    ensures { Gives stated result (shape_at version line.now) }
{
    if let Some(text) = after_front(line, b"at ") {
        claim_shape(text, ClaimSort::At)
    } else if let Some(text) = after_front(line, b"pass ") {
        claim_shape(text, ClaimSort::Pass)
    } else if let Some(text) = after_front(line, b"charge ") {
        charge_shape(version, text)
    } else if let Some(text) = after_front(line, b"task ") {
        task_shape(text)
    } else if let Some(text) = after_front(line, b"floor ") {
        floor_shape(text)
    } else if let Some(text) = after_front(line, b"nice ") {
        nice_shape(version, text)
    } else if let Some(text) = after_front(line, b"idle ") {
        idle_shape(version, text)
    } else {
        front_statement_of(line)
    }
}

/// The same of the shapes that stand before the floors.
#[tactic(auto, unfolding(crate::specs::ShapeReading::front_shape_at))]
fn front_statement_of(line: &[u8]) -> Option<Statement>
    ensures { Gives stated result (front_shape_at line.now) }
{
    if let Some(text) = after_front(line, b"start ") {
        start_shape(text)
    } else if let Some(text) = after_front(line, b"cpus ") {
        cpus_shape(text)
    } else if let Some(text) = after_front(line, b"cfs-companion ") {
        version_shape(text)
    } else {
        None
    }
}

#[tactic(auto, unfolding(crate::specs::ShapeReading::version_shape_at))]
fn version_shape(text: &[u8]) -> Option<Statement>
    ensures { Gives stated result (version_shape_at text.now) }
{
    let _version = number_whole(text)?;
    Some(Statement::Version)
}

#[tactic(auto, unfolding(crate::specs::ShapeReading::cpus_shape_at))]
fn cpus_shape(text: &[u8]) -> Option<Statement>
    ensures { Gives stated result (cpus_shape_at text.now) }
{
    Some(Statement::Cpus(number_whole(text)?))
}

fn start_shape(text: &[u8]) -> Option<Statement>
    ensures { Gives stated result (start_shape_at text.now) }
{
    Some(Statement::Start(read_time(text)?))
}

#[tactic(auto, unfolding(crate::specs::ShapeReading::floor_shape_at))]
fn floor_shape(text: &[u8]) -> Option<Statement>
    ensures { Gives stated result (floor_shape_at text.now) }
{
    let (cpu, text) = number_field(text)?;
    let floor = integer_whole(text)?;
    Some(Statement::Floor { cpu, floor })
}

#[tactic(auto, unfolding(crate::specs::ShapeReading::task_shape_at))]
fn task_shape(text: &[u8]) -> Option<Statement>
    ensures { Gives stated result (task_shape_at text.now) }
{
    let (pid, text) = number_field(text)?;
    let (nice, text) = integer_field(text)?;
    let (cpu, text) = number_field(text)?;
    let (place, text) = place_field(text)?;
    let v = integer_whole(text)?;
    Some(Statement::Task {
        pid,
        nice,
        cpu,
        place,
        v,
    })
}

#[inline(always)]
#[tactic(auto, unfolding(crate::specs::ShapeReading::claim_shape_at))]
fn claim_shape(text: &[u8], sort: ClaimSort) -> Option<Statement>
    ensures { Gives stated result (claim_shape_at sort text.now) }
{
    let (line, text) = number_field(text)?;
    let (pid, text) = number_field(text)?;
    let v = integer_whole(text)?;
    Some(Statement::Claim { line, pid, v, sort })
}

/// Version 1 doesn't have this one.
#[inline(always)]
#[tactic(auto, unfolding(crate::specs::ShapeReading::nice_shape_at))]
fn nice_shape(version: u32, text: &[u8]) -> Option<Statement>
    ensures { Gives stated result (nice_shape_at version text.now) }
{
    if version < 2 {
        return None;
    }
    let (line, text) = number_field(text)?;
    let (pid, text) = number_field(text)?;
    let nice = integer_whole(text)?;
    Some(Statement::Nice { line, pid, nice })
}

/// Version 1 doesn't have this one either.
#[inline(always)]
#[tactic(auto, unfolding(crate::specs::ShapeReading::idle_shape_at))]
fn idle_shape(version: u32, text: &[u8]) -> Option<Statement>
    ensures { Gives stated result (idle_shape_at version text.now) }
{
    if version < 2 {
        return None;
    }
    let (line, text) = number_field(text)?;
    let pid = number_whole(text)?;
    Some(Statement::Idle { line, pid })
}

/// Versions 1 and 2 don't have this one.
#[inline(always)]
#[tactic(auto, unfolding(crate::specs::ShapeReading::charge_shape_at))]
fn charge_shape(version: u32, text: &[u8]) -> Option<Statement>
    ensures { Gives stated result (charge_shape_at version text.now) }
{
    if version < 3 {
        return None;
    }
    let (line, text) = number_field(text)?;
    let (pid, text) = number_field(text)?;
    let v = integer_whole(text)?;
    Some(Statement::Charge { line, pid, v })
}
