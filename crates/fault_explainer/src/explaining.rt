use crate::bounds::push_bound;
use crate::event::Event;
use crate::gap::push_gap;
use crate::mend::push_mend;
use crate::scene::Scene;
use cfs_model::Memory;
use recent_past::RecentPast;
use replay_model::FirstFault;
use std::alloc::Global;
use task_names::TraceText;

/// How the first fault of a record comes about, of which this past is kept: how things were before its event, what
/// comes first at it, the bound that failed, and which setting would do. Each line begins with `# `. Names are read
/// from lines of the trace.
pub fn explanation<T: TraceText>(
    alloc: Global,
    past: &RecentPast,
    fault: &FirstFault,
    trace: &mut T,
) -> Result<String, Memory> {
    match Event::on_line(past, fault.line) {
        Some(event) => {
            let scene = Scene::new(alloc, past, *fault, event)?;
            told(alloc, scene, past, trace)
        }
        None => Ok(String::new(alloc)),
    }
}

/// A scene in words.
fn told<T: TraceText>(
    alloc: Global,
    scene: Scene,
    past: &RecentPast,
    trace: &mut T,
) -> Result<String, Memory> {
    let mut scene = scene;
    let mut text = String::new(alloc);
    push_scene(&mut text, &mut scene, alloc, past, trace)?;
    Ok(text)
}

/// Plays a scene to its fault, and tells it.
fn push_scene<T: TraceText>(
    text: &mut String,
    scene: &mut Scene,
    alloc: Global,
    past: &RecentPast,
    trace: &mut T,
) -> Result<(), Memory> {
    scene.recall(alloc, past, trace)?;
    scene.set(text)?;
    scene.go_on_to_pick()?;
    push_bound(text, scene)?;
    push_gap(text, scene)?;
    push_mend(text, scene)?;
    Ok(())
}
