use crate::Color;
use cfs_model::Knobs;

/// What a command line asks for.
#[derive(Clone, Copy, Debug, PartialEq, Eq)]
pub struct Request<'a> {
    /// The name of the trace's file, as given.
    pub trace: &'a str,
    /// The name of the companion's file, as given.
    pub companion: &'a str,
    /// The settings; where the least are asked for none is given, so these are the defaults.
    pub knobs: Knobs,
    /// Whether the least settings are asked for in place of a verdict.
    pub least: bool,
    /// Whether the report of a run is to be followed by how long each task waited.
    pub waits: bool,
    /// Whether what is told of a fault or a refusal is to be followed by why.
    pub explain: bool,
    /// Whether a run's counts are asked for without its tasks.
    pub summary: bool,
    /// Whether the report is asked for as JSON; then no explanation is.
    pub json: bool,
    /// When the explanation has colour.
    pub color: Color,
    /// The name of the file that the states at each event go to, as given; if they are asked for.
    pub states: Option<&'a str>,
}
