//! What is seen, as JSON.

use crate::view::{
    ArrayView, Commands, Controller, FailureView, NamedCount, PathView, Registration, SessionView,
    UnitView,
};
use json::Writer;
use meters::{Point, STEP, UnitPoint};
use std::alloc::{AllocError, Global};

/// JSON that is written. It keeps whether all of it could be, and from the first failure on writes no more.
#[derive(Drop)]
struct Json {
    writer: Writer,
    is_whole: bool,
}

/// What can be written as a JSON value.
trait AsJson {
    fn put(&self, json: &mut Json);
}

impl Json {
    fn new(alloc: Global) -> Json {
        Json {
            writer: Writer::new(Vec::new(alloc)),
            is_whole: true,
        }
    }

    fn null(&mut self) {
        self.is_whole = self.is_whole && self.writer.null().is_ok();
    }

    fn text(&mut self, text: &str) {
        self.is_whole = self.is_whole && self.writer.string(text).is_ok();
    }

    fn key(&mut self, name: &str) {
        self.is_whole = self.is_whole && self.writer.key(name).is_ok();
    }

    fn begin_array(&mut self) {
        self.is_whole = self.is_whole && self.writer.begin_array().is_ok();
    }

    fn end_array(&mut self) {
        self.is_whole = self.is_whole && self.writer.end_array().is_ok();
    }

    fn begin_object(&mut self) -> &mut Json {
        self.is_whole = self.is_whole && self.writer.begin_object().is_ok();
        self
    }

    fn end_object(&mut self) {
        self.is_whole = self.is_whole && self.writer.end_object().is_ok();
    }

    fn member<T: AsJson>(&mut self, name: &str, value: &T) -> &mut Json {
        self.key(name);
        value.put(self);
        self
    }

    // What was written.
    fn end(self) -> Result<Vec<u8>, AllocError> {
        if self.is_whole {
            Ok(self.writer.into_inner())
        } else {
            Err(AllocError)
        }
    }
}

impl AsJson for u64 {
    fn put(&self, json: &mut Json) {
        json.is_whole = json.is_whole && json.writer.u64(*self).is_ok();
    }
}

impl AsJson for bool {
    fn put(&self, json: &mut Json) {
        json.is_whole = json.is_whole && json.writer.boolean(*self).is_ok();
    }
}

impl AsJson for &'static str {
    fn put(&self, json: &mut Json) {
        json.text(self);
    }
}

impl AsJson for String {
    fn put(&self, json: &mut Json) {
        json.text(self.as_str());
    }
}

impl<T: AsJson> AsJson for Option<T> {
    fn put(&self, json: &mut Json) {
        match self {
            Some(value) => value.put(json),
            None => json.null(),
        }
    }
}

impl<T: AsJson> AsJson for Vec<T> {
    fn put(&self, json: &mut Json) {
        json.begin_array();
        for value in self {
            value.put(json);
        }
        json.end_array();
    }
}

// Writes an object: these fields of a value in this order, each as a member of its name, by which those who read the status know it.
macro_rules! put_fields {
    ($json:ident, $value:ident: $($name:ident),*) => {
        $json.begin_object()
            $(.member(stringify!($name), &$value.$name))*
            .end_object()
    };
}

impl AsJson for NamedCount {
    fn put(&self, json: &mut Json) {
        put_fields!(json, self: what, count);
    }
}

impl AsJson for Commands {
    fn put(&self, json: &mut Json) {
        put_fields!(json, self:
            operations, read_bytes, written_bytes, good, reservation_conflicts, busy, sense_keys,
            flushes, failed_flushes, buckets, micros);
    }
}

impl AsJson for PathView {
    fn put(&self, json: &mut Json) {
        put_fields!(json, self: controller, state, state_words, commands);
    }
}

impl AsJson for Registration {
    fn put(&self, json: &mut Json) {
        put_fields!(json, self: initiator, isid, key, controller, is_holder, reservation_type);
    }
}

impl AsJson for FailureView {
    fn put(&self, json: &mut Json) {
        put_fields!(json, self: file, call, count, is_now, began, last, ended, errno, error);
    }
}

impl AsJson for UnitView {
    fn put(&self, json: &mut Json) {
        put_fields!(json, self:
            unit, owner, generation, registrants, reservation_type, registrations, entries, naa,
            serial, wwid, disk,
            registration_file, blocks, health, troubles, failures, disk_failures,
            registration_failures, oldest_command_micros, unflushed_bytes, unflushed_bound_bytes,
            waited_writes, waited_micros, own_flushes, paths);
    }
}

impl AsJson for SessionView {
    fn put(&self, json: &mut Json) {
        put_fields!(json, self:
            initiator, isid, tsih, kind, controller, portal, peer, since, last_command, idle_micros,
            commands);
    }
}

impl AsJson for Controller {
    fn put(&self, json: &mut Json) {
        put_fields!(json, self: controller, is_down, portals, sessions, discoveries);
    }
}

impl AsJson for ArrayView {
    fn put(&self, json: &mut Json) {
        put_fields!(json, self:
            version, target, array, since, uptime_micros, controllers, units, sessions, logins,
            refused_logins, bounds_micros, problems, degraded);
    }
}

// What was counted of late.
#[derive(Drop)]
struct Recent {
    step_seconds: u64,
    points: Vec<Point>,
}

impl AsJson for UnitPoint {
    fn put(&self, json: &mut Json) {
        put_fields!(json, self: reads, writes, read_bytes, written_bytes, read_micros, write_micros);
    }
}

impl AsJson for Point {
    fn put(&self, json: &mut Json) {
        put_fields!(json, self: at, units);
    }
}

impl AsJson for Recent {
    fn put(&self, json: &mut Json) {
        put_fields!(json, self: step_seconds, points);
    }
}

/// What was counted of late, the oldest first, as JSON.
pub fn kept(alloc: Global, points: Vec<Point>) -> Result<Vec<u8>, AllocError> {
    let mut json = Json::new(alloc);
    Recent {
        step_seconds: STEP,
        points,
    }
    .put(&mut json);
    json.end()
}

/// What is seen of an array, as JSON.
pub fn status(alloc: Global, view: &ArrayView) -> Result<Vec<u8>, AllocError> {
    let mut json = Json::new(alloc);
    view.put(&mut json);
    json.end()
}
