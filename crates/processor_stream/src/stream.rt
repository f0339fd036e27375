ghost use Rattle.std.specs.Prelude.{◌≡◌};
ghost use Rattle.processor_stream.specs.StreamKept.{IsStream};

use crate::steps::Steps;
use cfs_model::Task;
use plain_list::PlainList;
use replay_model::Step;

/// What one processor sees of a record.
#[derive(Debug, Drop)]
pub struct Stream {
    pub(crate) cpu: u32,
    pub(crate) tasks: PlainList<Task>,
    pub(crate) floor: i64,
    pub(crate) start: u64,
    pub(crate) steps: Steps,
    pub(crate) last_time: u64,
    pub(crate) last_line: u32,
    pub ghost kept: { IsStream (record {
      cpu = cpu;
      tasks = tasks;
      floor = floor;
      start = start;
      steps = steps;
      last_time = last_time;
      last_line = last_line;
    }) },
}

impl Stream {
    ghost use Rattle.processor_stream.specs.Stream.{stream_view};

    /// A stream of these parts: the processor; the tasks there at the start, and its floor, in virtual nanoseconds; the
    /// start, in nanoseconds; the steps; the time and the line of the whole record's last event. It takes no memory.
    pub fn new(
        cpu: u32,
        tasks: PlainList<Task>,
        floor: i64,
        start: u64,
        steps: Steps,
        last_time: u64,
        last_line: u32,
    ) -> Stream
        requires { IsStream (record {
          cpu = cpu;
          tasks = tasks;
          floor = floor;
          start = start;
          steps = steps;
          last_time = last_time;
          last_line = last_line;
        }) }
        ensures { stream_view result ≡ record {
          cpu = cpu;
          tasks = tasks;
          floor = floor;
          start = start;
          steps = steps;
          last_time = last_time;
          last_line = last_line;
        } }
    {
        Stream {
            cpu,
            tasks,
            floor,
            start,
            steps,
            last_time,
            last_line,
        }
    }

    /// The processor.
    pub fn cpu(&self) -> u32
        ensures { result ≡ (stream_view self.now).cpu }
    {
        self.cpu
    }

    /// The tasks that stand at the processor at the start, by rising pid.
    pub fn tasks(&self) -> &[Task]
        ensures { result.now ≡ (stream_view self.now).tasks }
    {
        self.tasks.as_slice()
    }

    /// The processor's floor at the start, in virtual nanoseconds, signed.
    pub fn floor(&self) -> i64
        ensures { result ≡ (stream_view self.now).floor }
    {
        self.floor
    }

    /// The start time, in nanoseconds.
    pub fn start(&self) -> u64
        ensures { result ≡ (stream_view self.now).start }
    {
        self.start
    }

    /// The steps, in the order of their lines.
    pub fn steps(&self) -> &[Step]
        ensures { result.now ≡ (stream_view self.now).steps }
    {
        self.steps.as_slice()
    }

    /// The time of the whole record's last event, in nanoseconds; the start where there is none.
    pub fn last_time(&self) -> u64
        ensures { result ≡ (stream_view self.now).last_time }
    {
        self.last_time
    }

    /// The line of the whole record's last event in the trace, from 1, comments counted; 0 where there is none.
    pub fn last_line(&self) -> u32
        ensures { result ≡ (stream_view self.now).last_line }
    {
        self.last_line
    }
}
