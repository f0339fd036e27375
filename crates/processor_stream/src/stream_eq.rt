use crate::stream::Stream;

impl PartialEq for Stream {
    ghost use Rattle.std.specs.Prelude.{◌≡◌, ◌↔◌, IsTrue};
    ghost use Rattle.std.specs.Cmp.{on_per, partial_equiv_from_equiv};
    ghost use Rattle.processor_stream.specs.Same.{is_same, is_same_equiv};
    ghost use Rattle.processor_stream.specs.Stream.{stream_view};

    ghost eq = { λ a b. is_same (stream_view a) (stream_view b) };

    ghost laws = { on_per stream_view (partial_equiv_from_equiv is_same_equiv) };

    /// Whether two streams hold the same. It takes no memory.
    fn eq(&self, other: &Stream) -> bool
        ensures each { result ≡ is_same (stream_view self.now) (stream_view other.now) }
        ensures exact { IsTrue result ↔ (stream_view self.now ≡ stream_view other.now) }
    {
        self.cpu == other.cpu
            && self.tasks() == other.tasks()
            && self.floor == other.floor
            && self.start == other.start
            && self.steps() == other.steps()
            && self.last_time == other.last_time
            && self.last_line == other.last_line
    }
}

impl Eq for Stream {
    ghost use Rattle.std.specs.Cmp.{on_equiv};
    ghost use Rattle.processor_stream.specs.Same.{is_same_equiv};
    ghost use Rattle.processor_stream.specs.Stream.{stream_view};

    ghost laws = { on_equiv stream_view is_same_equiv };
}
