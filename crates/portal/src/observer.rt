//! Who looks at a session for those who run the array.

use crate::counted::served_of;
use event_log::Log;
use events::{Event, Initiator, Path, SessionType};
use live_sessions::BeginFault;
use meters::{Hand, Visit};
use scsi_types::Asked;
use session::TargetAnswer;
use std::alloc::Global;
use std::cell::{Cell, RefCell};
use std::sync::Wait;
use std::time::{Clock, Duration};

/// The log that is told of a session which came by a path, and what its commands are counted by: by its source, which tells when
/// bytes come, its target, which tells of each command, and its sink, which tells when answers leave.
#[derive(Drop)]
pub struct Observer<'a, R: Wait + Clock> {
    rt: &'a R,
    /// What happens is told to it.
    pub log: &'a Log,
    /// How the session came.
    pub path: Path,
    // None: its commands are not counted.
    hand: RefCell<Option<Hand>>,
    // A discovery session has begun.
    is_discovery: Cell<bool>,
}

impl<'a, R: Wait + Clock> Observer<'a, R> {
    /// Of a session that has not begun.
    pub fn new(rt: &'a R, log: &'a Log, path: Path) -> Observer<'a, R> {
        Observer {
            rt,
            log,
            path,
            hand: RefCell::new(None),
            is_discovery: Cell::new(false),
        }
    }

    /// Whether a discovery session has begun.
    pub(crate) fn is_discovery(&self) -> bool {
        self.is_discovery.get()
    }

    /// Tells the log.
    pub(crate) fn tell(&self, event: &Event<'_>) {
        self.log.tell(self.rt, event);
    }

    // What counts the commands of a session that has begun, where they are counted and there is memory for it.
    fn hand_of(
        &self,
        alloc: Global,
        who: Initiator<'_>,
        tsih: u16,
        kind: SessionType,
    ) -> Option<Hand> {
        let meters = self.log.meters()?;
        let since = self.rt.since_1970().unwrap_or(Duration::ZERO);
        let visit = Visit::new(alloc, who, self.path, tsih, kind, since).ok()?;
        meters.enter(self.rt, alloc, visit).ok()
    }

    /// The session was to begin: where it has begun, its kind is known, and its commands are counted.
    pub(crate) fn enter(
        &self,
        alloc: Global,
        who: Initiator<'_>,
        tried: Result<u16, BeginFault>,
        kind: SessionType,
    ) {
        let Ok(tsih) = tried else {
            return;
        };
        self.is_discovery
            .set(matches!(kind, SessionType::Discovery));
        if let Ok(mut hand) = self.hand.try_borrow_mut() {
            *hand = self.hand_of(alloc, who, tsih, kind);
        }
    }

    /// The session has ended.
    pub(crate) fn leave(&self) {
        if let Ok(mut hand) = self.hand.try_borrow_mut()
            && let Some(hand) = hand.take()
            && let Some(meters) = self.log.meters()
        {
            meters.leave(self.rt, hand);
        }
    }

    /// Bytes have come.
    pub(crate) fn came(&self) {
        if let Ok(mut hand) = self.hand.try_borrow_mut()
            && let Some(hand) = hand.as_mut()
        {
            hand.came(self.rt);
        }
    }

    /// A command begins.
    pub(crate) fn begin(&self, unit: Option<u8>) {
        if let Some(unit) = unit
            && let Ok(mut hand) = self.hand.try_borrow_mut()
            && let Some(hand) = hand.as_mut()
        {
            hand.begin(unit);
        }
    }

    /// Counts a command, which has ended with this answer.
    pub(crate) fn count(&self, unit: Option<u8>, asked: &Asked, answer: &TargetAnswer) {
        if let Some(unit) = unit
            && let Ok(mut hand) = self.hand.try_borrow_mut()
            && let Some(hand) = hand.as_mut()
        {
            hand.end(unit, served_of(asked, answer));
        }
    }

    /// Answers leave.
    pub(crate) fn sends(&self) {
        if let Ok(mut hand) = self.hand.try_borrow_mut()
            && let Some(hand) = hand.as_mut()
        {
            hand.leave(self.rt);
        }
    }
}
