//! Recordings with told charges at one processor, each with the first fault of its replay, however its steps are cut.

use crate::answers::wants;
use crate::calls::{page_after, replay_at};
use cfs_model::{Kind, Knobs, Setting};
use queue_replay::Page;
use replay_model::Tally;
use std::alloc::Global;
use std::test::Fail;

// 101 runs from 100.000000 on, and after each of three milliseconds an event charges it.
const TRACE: &[u8] =
    b"            t101-101     [000] d..2.   100.001000: sched_wakeup: comm=t101 pid=101 prio=120 target_cpu=000\n            t101-101     [000] d..2.   100.002000: sched_wakeup: comm=t101 pid=101 prio=120 target_cpu=000\n            t101-101     [000] d..2.   100.003000: sched_wakeup: comm=t101 pid=101 prio=120 target_cpu=000\n";

const START: &[u8] =
    b"cfs-companion 3\ncpus 1\nstart 100.000000\nfloor 0 0\ntask 101 0 0 run 0\ntask 102 0 0 wait 0\n";

/// What the companion tells of the charges, the drift that is allowed, and the line and pid of the fault, which is a
/// wrong charge, if there is one.
#[derive(Clone, Copy)]
struct Told {
    charges: &'static [u8],
    drift: u64,
    fault: Option<(u32, u32)>,
}

/// 400 more, and then 500 less than the exact charge from there.
const TAKEN_BACK: Told = Told {
    charges: b"charge 1 101 1000400\ncharge 2 101 1999900\n",
    drift: 400,
    fault: None,
};

static CHARGES: [Told; 15] = [
    TAKEN_BACK,
    Told {
        charges: b"charge 1 101 1000400\ncharge 2 101 1999900\n",
        drift: 399,
        fault: Some((1, 101)),
    },
    Told {
        charges: b"charge 1 101 999600\n",
        drift: 400,
        fault: None,
    },
    Told {
        charges: b"charge 1 101 999600\n",
        drift: 399,
        fault: Some((1, 101)),
    },
    // The drifts add up, to 800.
    Told {
        charges: b"charge 1 101 1000400\ncharge 2 101 2000800\n",
        drift: 800,
        fault: None,
    },
    Told {
        charges: b"charge 1 101 1000400\ncharge 2 101 2000800\n",
        drift: 799,
        fault: Some((2, 101)),
    },
    // An exact charge goes on from the told one, and takes no drift away.
    Told {
        charges: b"charge 1 101 1000400\ncharge 3 101 3000800\n",
        drift: 800,
        fault: None,
    },
    Told {
        charges: b"charge 1 101 1000400\ncharge 3 101 3000800\n",
        drift: 799,
        fault: Some((3, 101)),
    },
    Told {
        charges: b"charge 1 101 1000400\ncharge 3 101 3000400\n",
        drift: 400,
        fault: None,
    },
    // Nothing is charged: 1000000 less than the exact charge.
    Told {
        charges: b"charge 1 101 1000400\ncharge 2 101 1000400\n",
        drift: 999_600,
        fault: None,
    },
    Told {
        charges: b"charge 1 101 1000400\ncharge 2 101 1000400\n",
        drift: 999_599,
        fault: Some((2, 101)),
    },
    // No charge takes virtual runtime away, and none is of another task, whatever the drift.
    Told {
        charges: b"charge 1 101 1000400\ncharge 2 101 1000399\n",
        drift: 1_000_000_000_000,
        fault: Some((2, 101)),
    },
    Told {
        charges: b"charge 3 102 0\n",
        drift: 1_000_000_000_000,
        fault: Some((3, 102)),
    },
    // Without a drift each is exact.
    Told {
        charges: b"charge 1 101 1000000\ncharge 2 101 2000000\ncharge 3 101 3000000\n",
        drift: 0,
        fault: None,
    },
    Told {
        charges: b"charge 1 101 1000000\ncharge 2 101 2000001\n",
        drift: 0,
        fault: Some((2, 101)),
    },
];

/// The companion with these charges.
fn companion_with(alloc: Global, charges: &[u8]) -> Result<Vec<u8>, Fail> {
    let mut text = Vec::new(alloc);
    text.extend_from_slice(START)?;
    text.extend_from_slice(charges)?;
    Ok(text)
}

/// The page of a row's replay, in calls of so many steps.
fn page_of(alloc: Global, row: &Told, steps: u64) -> Result<Page, Fail> {
    let knobs = Knobs::standard()
        .with(Setting::Drift, row.drift)
        .ok_or("settings in range")?;
    let companion = companion_with(alloc, row.charges)?;
    page_after(replay_at(alloc, TRACE, &companion, 0, knobs)?, steps)
}

/// The line, pid and kind of the fault on that page.
fn fault_of(alloc: Global, row: &Told, steps: u64) -> Result<Option<(u32, u32, Kind)>, Fail> {
    let page = page_of(alloc, row, steps)?;
    Ok(
        page.fault()
            .map(|fault| (fault.line, fault.pid, fault.kind)),
    )
}

/// Whether that is the row's, in calls of one step, of two, and of all.
fn is_well_judged(alloc: Global, row: &Told) -> Result<bool, Fail> {
    let wanted = row.fault.map(|(line, pid)| (line, pid, Kind::WrongCharge));
    for steps in [1, 2, 1000] {
        if fault_of(alloc, row, steps)? != wanted {
            return Ok(false);
        }
    }
    Ok(true)
}

/// The place of the first row that isn't judged as the table says.
fn misjudged(alloc: Global) -> Result<Option<usize>, Fail> {
    for (place, row) in CHARGES.iter().enumerate() {
        if !is_well_judged(alloc, row)? {
            return Ok(Some(place));
        }
    }
    Ok(None)
}

#[test]
fn told_charges_may_stray_in_sum_by_the_drift(rt: HostRuntime) -> Result<(), Fail> {
    wants(&rt, &misjudged(rt.alloc())?, &None);
    Ok(())
}

/// Whether these are a page's tallies.
fn are_tallies(page: &Page, tallies: &[Tally]) -> bool {
    page.tallies() == tallies
}

/// Whether the page of the row whose drift is taken back has these tallies and this need of the drift, in calls of so
/// many steps.
fn tells(alloc: Global, steps: u64, tallies: &[Tally], drift: u64) -> Result<bool, Fail> {
    let page = page_of(alloc, &TAKEN_BACK, steps)?;
    Ok(are_tallies(&page, tallies) && page.needs().get(Setting::Drift) == drift)
}

// 1000400, then 999500 as told, and 1000000 exactly.
#[test]
fn a_page_tallies_charges_as_told_and_the_greatest_drift(rt: HostRuntime) -> Result<(), Fail> {
    let tallies = [
        Tally {
            pid: 101,
            ran: 3_000_000,
            charged: 2_999_900,
            picks: 0,
        },
        Tally {
            pid: 102,
            ran: 0,
            charged: 0,
            picks: 0,
        },
    ];
    for steps in [1, 2, 1000] {
        wants(&rt, &tells(rt.alloc(), steps, &tallies, 400)?, &true);
    }
    Ok(())
}
