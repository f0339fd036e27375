use audit_request::{Color, Request};
use std::env;
use std::env::VarError;
use std::rt::Env;

/// Which of the program's outputs are terminals.
#[derive(Clone, Copy, Debug, PartialEq, Eq)]
pub struct Terminals {
    pub output: bool,
    pub errors: bool,
}

impl Terminals {
    /// The request, with colour always or never: by what is asked for; unless it says otherwise, always on a terminal,
    /// and never where the environment's `NO_COLOR` has a value.
    pub fn color<'a, R: Env + AllocGlobal>(self, rt: &R, request: Request<'a>) -> Request<'a> {
        let color = self.resolve(rt, request.color);
        Request { color, ..request }
    }

    fn resolve<R: Env + AllocGlobal>(self, rt: &R, asked: Color) -> Color {
        match asked {
            Color::Auto if self.output && !has_no_color(rt) => Color::Always,
            Color::Auto => Color::Never,
            Color::Always | Color::Never => asked,
        }
    }
}

/// Whether the environment asks for no colour.
fn has_no_color<R: Env + AllocGlobal>(rt: &R) -> bool {
    match env::var(rt, "NO_COLOR") {
        Ok(value) => !value.as_str().is_empty(),
        Err(VarError::NotPresent) => false,
        Err(_) => true,
    }
}
