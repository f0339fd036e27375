use crate::known::Known;
use crate::news::News;
use crate::placement::Placement;
use crate::placements::Placements;
use crate::placing::Placing;
use crate::values::moved;
use cfs_model::Memory;
use std::alloc::Global;
use std::collections::BTreeMap;

/// How many placements one print tells at most, each by the next.
const MOST_TOLD: usize = 64;

/// A placement that no print tells.
#[derive(Clone, Copy, Debug)]
pub(crate) struct Unsettled {
    pub at: Placing,
    /// The virtual runtime that it was given.
    pub v: i64,
    /// The least that it could be given: what the task had before.
    pub own: i64,
    /// The placement before, among those that no print tells, where none has told it since.
    pub before: Option<usize>,
}

/// The placements that no print tells, and what they have to be by what was found later.
#[derive(Drop)]
pub(crate) struct UnsettledPlacings {
    placings: Vec<Unsettled>,
    asked: BTreeMap<Placing, i64>,
}

impl UnsettledPlacings {
    /// None.
    pub(crate) fn new(alloc: Global) -> UnsettledPlacings {
        UnsettledPlacings {
            placings: Vec::new(alloc),
            asked: BTreeMap::new(alloc),
        }
    }

    /// Notes a placement, unless a print tells it, and answers its index here.
    pub(crate) fn note(
        &mut self,
        placement: Placement,
        unsettled: Unsettled,
    ) -> Result<Option<usize>, Memory> {
        match placement {
            Placement::Printed(_) => Ok(None),
            Placement::Unknown | Placement::Asked(_) => {
                let index = self.placings.len();
                self.placings.push(unsettled)?;
                Ok(Some(index))
            }
        }
    }

    /// Where a task has turned out to have another virtual runtime than was found, its last placement has to be another
    /// by as much. Where that is less than the task had before, the placement before that has to be another too, and so
    /// on.
    pub(crate) fn ask(
        &mut self,
        last: Option<usize>,
        wanted: i64,
        found: i64,
    ) -> Result<(), Memory> {
        let mut last = last;
        let mut wanted = wanted;
        let mut found = found;
        for _ in 0..MOST_TOLD {
            let Some(unsettled) = self.at(last) else {
                break;
            };
            let v = moved(unsettled.v, found, wanted);
            self.asked.insert(unsettled.at, v)?;
            if v >= unsettled.own {
                break;
            }
            wanted = v;
            found = unsettled.own;
            last = unsettled.before;
        }
        Ok(())
    }

    fn at(&self, index: Option<usize>) -> Option<Unsettled> {
        self.placings.get(index?).copied()
    }

    /// Tells which placements turned out to be others, and what they have to be.
    pub(crate) fn tell_asked(
        &self,
        known: &mut Known,
        placements: &mut Placements,
    ) -> Result<News, Memory> {
        let mut news = News::None;
        for (at, v) in self.asked.iter() {
            let is_news = match *at {
                Placing::AtStart(pid) => known.ask(pid, *v)?,
                Placing::ByEvent(index) => placements.ask(index, *v),
            };
            if is_news {
                news = news.max(News::of(*at));
            }
        }
        Ok(news)
    }
}
