use crate::answers::wants;
use cfs_model::{
    Kind, Knobs, Memory, Nice, Policy, PrioFault, birth_example, charge, drifts, floors_rise,
    idle_example, least_settings, marks_move, migration_example, nice_example, no_drift, one_list,
    pick_example, places, policies, policy_example, prefixes, put_back_example, told_example,
    untold, wake_example, weight, weight_of,
};
use part_laws::{migrations, pages, part_steps};
use replay_laws::{closing, composition, endings, faults_end_runs, first_faults, needs, replays};
use std::test::Fail;

static CHARGES: [(u64, u32, Option<i64>); 9] = [
    (4_000_000, 88_761, Some(46_146)),
    (4_000_000, 15, Some(273_066_666)),
    (0, 15, Some(0)),
    (67_553_994_410_557_440, 15, Some(4_611_686_018_427_387_904)),
    (67_553_994_410_557_441, 15, None),
    (4_000_000, 335, Some(12_226_865)),
    (4_000_000, 3, Some(1_365_333_333)),
    (13_510_798_882_111_488, 3, Some(4_611_686_018_427_387_904)),
    (13_510_798_882_111_489, 3, None),
];

/// The running time and the weight of the first charge in the table that is another.
fn mischarged() -> Option<(u64, u32)> {
    for (delta, weight, cost) in &CHARGES {
        if *weight > 0 && charge(*delta, *weight) != *cost {
            return Some((*delta, *weight));
        }
    }
    None
}

#[test]
fn charges_are_rounded_down_and_end_at_the_greatest(rt: HostRuntime) {
    wants(&rt, &mischarged(), &None);
}

/// By nice value the weight of a fair task, told twice, and that of a task of the idle policy, where there is such a
/// value.
static WEIGHTS: [(i32, Option<(u32, u32, u32)>); 7] = [
    (-21, None),
    (-20, Some((88_761, 88_761, 3))),
    (-1, Some((1_277, 1_277, 3))),
    (0, Some((1_024, 1_024, 3))),
    (5, Some((335, 335, 3))),
    (19, Some((15, 15, 3))),
    (20, None),
];

fn weights_of(value: i32) -> Option<(u32, u32, u32)> {
    let nice = Nice::new(value)?;
    Some((
        weight(nice),
        weight_of(nice, Policy::Normal),
        weight_of(nice, Policy::Idle),
    ))
}

/// The first nice value in the table by which tasks weigh otherwise.
fn misweighed() -> Option<i32> {
    for (value, weights) in &WEIGHTS {
        if weights_of(*value) != *weights {
            return Some(*value);
        }
    }
    None
}

#[test]
fn tasks_weigh_by_nice_and_those_of_the_idle_policy_3(rt: HostRuntime) {
    wants(&rt, &misweighed(), &None);
}

static PRIOS: [(i64, Result<i32, PrioFault>); 6] = [
    (99, Err(PrioFault::RealTime)),
    (-1, Err(PrioFault::RealTime)),
    (140, Err(PrioFault::PrioRange)),
    (100, Ok(-20)),
    (120, Ok(0)),
    (139, Ok(19)),
];

/// The nice value that a prio stands for.
fn nice_of(prio: i64) -> Result<i32, PrioFault> {
    match Nice::of_prio(prio) {
        Ok(nice) => Ok(nice.get()),
        Err(fault) => Err(fault),
    }
}

/// The first prio in the table that is read otherwise.
fn misread_prio() -> Option<i64> {
    for (prio, nice) in &PRIOS {
        if nice_of(*prio) != *nice {
            return Some(*prio);
        }
    }
    None
}

#[test]
fn prios_of_fair_tasks_are_100_to_139(rt: HostRuntime) {
    wants(&rt, &misread_prio(), &None);
}

/// The five settings, where they are in range.
fn settings(knobs: Option<Knobs>) -> Option<(u64, u64, u64, u64, u64)> {
    let knobs = knobs?;
    Some((
        knobs.granularity(),
        knobs.credit(),
        knobs.debit(),
        knobs.slack(),
        knobs.drift(),
    ))
}

#[test]
fn settings_end_at_a_thousand_seconds(rt: HostRuntime) {
    let most = 1_000_000_000_000;
    let above = most + 1;
    wants(
        &rt,
        &settings(Knobs::new(most, most, most, most, most)),
        &Some((most, most, most, most, most)),
    );
    wants(
        &rt,
        &[
            Knobs::new(above, 0, 0, 0, 0),
            Knobs::new(0, above, 0, 0, 0),
            Knobs::new(0, 0, above, 0, 0),
            Knobs::new(0, 0, 0, above, 0),
            Knobs::new(0, 0, 0, 0, above),
        ],
        &[None; 5],
    );
    wants(
        &rt,
        &settings(Some(Knobs::standard())),
        &Some((1_000_000, 3_000_000, 3_000_000, 100_000, 0)),
    );
}

// The words of each kind are in the reports of the worked rows.
#[test]
fn kinds_print_their_name_and_text(rt: HostRuntime) -> Result<(), Fail> {
    let printed = Kind::Range.to_string(rt.alloc())?;
    wants(
        &rt,
        &printed.as_str(),
        &"Range: virtual runtime out of range",
    );
    Ok(())
}

#[test]
fn want_of_memory_prints_its_text(rt: HostRuntime) -> Result<(), Fail> {
    wants(
        &rt,
        &Memory.to_string(rt.alloc())?.as_str(),
        &"out of memory",
    );
    Ok(())
}

// Laws and examples of the crates below do nothing: a call shows that it can be made.
#[test]
fn laws_and_examples() {
    one_list();
    prefixes();
    places();
    floors_rise();
    marks_move();
    untold();
    no_drift();
    drifts();
    policies();
    least_settings();
    pages();
    part_steps();
    migrations();
    replays();
    faults_end_runs();
    composition();
    endings();
    closing();
    first_faults();
    needs();
    put_back_example();
    pick_example();
    migration_example();
    wake_example();
    idle_example();
    birth_example();
    nice_example();
    policy_example();
    told_example();
}
