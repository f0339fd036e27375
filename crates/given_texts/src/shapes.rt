use bstr::ByteSlice;

/// What a text that isn't read begins with, or has somewhere, and what to do with it.
#[derive(Clone, Copy)]
struct Shape {
    mark: &'static [u8],
    hint: &'static str,
}

/// What a companion begins with.
const COMPANION: &[u8] = b"cfs-companion ";

/// How many bytes of a text are its front.
const NEAR: usize = 1 << 16;

/// By what stands in front.
static FRONTS: [Shape; 7] = [
    Shape {
        mark: b"\x1f\x8b",
        hint: "is compressed: `gzip -dc FILE` writes the text",
    },
    Shape {
        mark: b"BZh",
        hint: "is compressed: `bzip2 -dc FILE` writes the text",
    },
    Shape {
        mark: b"\xfd7zXZ\0",
        hint: "is compressed: `xz -dc FILE` writes the text",
    },
    Shape {
        mark: b"\x28\xb5\x2f\xfd",
        hint: "is compressed: `zstd -dc FILE` writes the text",
    },
    Shape {
        mark: b"\x17\x08\x44tracing",
        hint: "is trace-cmd's binary file: `trace-cmd report -N -i FILE | sed -E '/^cpus=/d; s/: (sched_[a-z_]+): +/: \\1: /'` writes the text",
    },
    Shape {
        mark: b"cpus=",
        hint: "looks like `trace-cmd report`: `trace-cmd report -N | sed -E '/^cpus=/d; s/: (sched_[a-z_]+): +/: \\1: /'` writes the text",
    },
    Shape {
        mark: b"PERFILE2",
        hint: "is perf's binary file: `perf script -i FILE | LC_ALL=C sed -E 's/^(.{16}) +-?([0-9]+ +\\[[0-9]+\\] +[0-9.]+: ) *(sched:)?/\\1-\\2/; s/(: sched_switch: )(.*):([0-9]+) \\[([-0-9]+)\\] ([^ ]+) ==> (.*):([0-9]+) \\[([-0-9]+)\\]$/\\1prev_comm=\\2 prev_pid=\\3 prev_prio=\\4 prev_state=\\5 ==> next_comm=\\6 next_pid=\\7 next_prio=\\8/; s/(: sched_wakeup[_new]*: )(.*):([0-9]+) \\[([-0-9]+)\\].* CPU:([0-9]+)$/\\1comm=\\2 pid=\\3 prio=\\4 target_cpu=\\5/'` writes the text",
    },
];

/// By what stands somewhere near the front.
static WITHIN: [Shape; 1] = [Shape {
    mark: b" sched:sched_",
    hint: "looks like `perf script`: `perf script | LC_ALL=C sed -E 's/^(.{16}) +-?([0-9]+ +\\[[0-9]+\\] +[0-9.]+: ) *(sched:)?/\\1-\\2/; s/(: sched_switch: )(.*):([0-9]+) \\[([-0-9]+)\\] ([^ ]+) ==> (.*):([0-9]+) \\[([-0-9]+)\\]$/\\1prev_comm=\\2 prev_pid=\\3 prev_prio=\\4 prev_state=\\5 ==> next_comm=\\6 next_pid=\\7 next_prio=\\8/; s/(: sched_wakeup[_new]*: )(.*):([0-9]+) \\[([-0-9]+)\\].* CPU:([0-9]+)$/\\1comm=\\2 pid=\\3 prio=\\4 target_cpu=\\5/'` writes the text",
}];

/// What the text of an event of the scheduler begins with.
static EVENTS: [&[u8]; 4] = [
    b": sched_switch: ",
    b": sched_wakeup: ",
    b": sched_wakeup_new: ",
    b": sched_migrate_task: ",
];

/// What to do with what was given as a trace, where it has a known shape; by its front alone. Where it is a companion,
/// the program that reads it says what.
pub fn trace_hint(front: &[u8], of_companion: &'static str) -> Option<&'static str> {
    if front.starts_with(COMPANION) {
        Some(of_companion)
    } else {
        shape_hint(front)
    }
}

/// A text, of which no more is looked at than its front.
pub(crate) fn near_front(text: &[u8]) -> &[u8] {
    text.get(..NEAR).unwrap_or(text)
}

/// What to do with a text that is neither of a trace's shape nor of a companion's, where its shape is known.
fn shape_hint(front: &[u8]) -> Option<&'static str> {
    for shape in &FRONTS {
        if front.starts_with(shape.mark) {
            return Some(shape.hint);
        }
    }
    for shape in &WITHIN {
        if near_front(front).find(shape.mark).is_some() {
            return Some(shape.hint);
        }
    }
    None
}

/// What to do with what was given as a companion, where it is a trace or has another known shape; by its front alone.
pub fn companion_hint(front: &[u8]) -> Option<&'static str> {
    if front.starts_with(COMPANION) {
        None
    } else if has_event(front) || front.starts_with(b"# tracer: ") {
        Some("is a trace: the companion is named second")
    } else {
        shape_hint(front)
    }
}

/// Whether a text has an event of the scheduler, by the looks of it.
pub fn has_event(text: &[u8]) -> bool {
    for event in &EVENTS {
        if text.find(*event).is_some() {
            return true;
        }
    }
    false
}
