use cfs_model::{Knobs, Setting};
use std::fmt;

/// The command that audits at these settings, of which it names those that aren't the defaults.
#[derive(Clone, Copy)]
pub(crate) struct AuditCommand(pub Knobs);

impl fmt::Display for AuditCommand {
    fn fmt<W: fmt::Write>(&self, f: &mut fmt::Formatter<W>) -> fmt::Result {
        f.write_str("sched_audit")?;
        for setting in &Setting::ALL {
            write_option(f, *setting, self.0.get(*setting))?;
        }
        f.write_str(" TRACE COMPANION")
    }
}

/// The option that asks for so much of a setting, unless that is its default.
fn write_option<W: fmt::Write>(
    f: &mut fmt::Formatter<W>,
    setting: Setting,
    amount: u64,
) -> fmt::Result {
    if amount == setting.standard() {
        return Ok(());
    }
    let name = setting.name();
    write!(f, " --{name} {amount}")
}
