//! The bytes that wait to leave, and when they do.
ghost use Rattle.std.specs.Prelude.{◌≡◌, ◌+◌, ◌++◌, ◌<◌, ◌≤◌, [], false, true, length, vec_capacity, IfOk, Some};
ghost use Rattle.session_stream.specs.Pdus.{AreInReach, data_ins_of, sent_by};
ghost use Rattle.session_stream.specs.Outbox.{OutboxValue, IsQueued, IsAllOut};
ghost use Rattle.session_rules.specs.Response.{sense_part};
ghost use Rattle.session_rules.specs.Turn.{bytes_of};
ghost use Rattle.iscsi_pdu.specs.Spelling.{spelling};

use crate::data_in::segment_at;
use crate::pdus::{DataIns, Pdus};
use crate::source::Sink;
use iscsi_coding::encode;
use iscsi_pdu::{BHS_LENGTH, Header, MAX_DATA_SEGMENT_LENGTH, Pdu, ScsiResponse, TargetHeader};
use scsi_types::Sense;
use std::alloc::{AllocError, Global};
use std::marker::Model;

/// The bytes of sense in the fixed format (SPC-4, 4.5.3).
pub const SENSE_LENGTH: u8 = 18;

/// The data segment of a SCSI Response with sense: SenseLength, and the sense (RFC 7143, 11.4.7).
pub const SENSE_SEGMENT_LENGTH: usize = 20;

/// The most bytes that wait: room for a read of 256 KiB in Data-In of 8192 behind what may wait, so that it leaves in one
/// write.
const OUTBOX_CAPACITY: usize = 299008;

/// The bytes of the memory until more were to wait: room for a PDU of the longest.
const LEAST_CAPACITY: usize = 65588;

/// So many bytes do not wait for the next read: they leave, so that the peer works on them while the session makes its
/// next turns.
pub const ENOUGH_TO_WRITE: usize = 32768;

/// The most bytes that pad a data segment.
const MOST_PADDING: usize = 3;

/// The bytes of PDUs until they are written, in memory for one PDU at least, which was taken at the beginning. Where there
/// was no room in it, it takes more, if that is there.
///
/// They leave together: before the session waits for its peer, behind a turn that leaves `ENOUGH_TO_WRITE`, where there
/// is no room for more, and at its end. Once the sink failed, nothing more is written.
#[derive(Drop)]
pub struct Outbox {
    alloc: Global,
    bytes: Vec<u8>,
    failed: bool,
}

impl Model for Outbox {
    ghost use Rattle.std.specs.Prelude.{◌≤◌, length, vec_capacity};
    ghost use Rattle.session_stream.specs.Outbox.{OutboxValue};
    ghost use Rattle.session_stream.specs.declared.outbox.TheConstants.{LEAST_CAPACITY, OUTBOX_CAPACITY};

    ghost Value = { OutboxValue };

    ghost view = { λ s. record { waiting = s.bytes.items; failed = s.failed } };

    ghost invariant = { λ s. (length s.bytes.items ≤ OUTBOX_CAPACITY) × (LEAST_CAPACITY ≤ vec_capacity s.bytes) };
}

impl Outbox {
    /// An empty outbox.
    pub fn new(alloc: Global) -> Result<Outbox, AllocError>
        ensures { IfOk result (λ b. b ≡ record { waiting = []; failed = false }) }
    {
        Ok(Outbox {
            alloc,
            bytes: Vec::with_capacity(alloc, LEAST_CAPACITY)?,
            failed: false,
        })
    }

    /// Gives memory back while nothing comes and nothing waits.
    pub fn rest(&mut self)
        requires { self.old.waiting ≡ [] }
        ensures { self.new ≡ self.old }
    {
        self.renew(LEAST_CAPACITY);
    }

    // Moves what waits into other memory, of so many bytes, where it is to be had.
    fn renew(&mut self, capacity: usize)
        requires { LEAST_CAPACITY ≤ capacity }
        ensures { self.new ≡ self.old }
    {
        if let Ok(mut bytes) = Vec::with_capacity(self.alloc, capacity)
            && let Ok(()) = bytes.extend_from_slice(&self.bytes)
        {
            self.bytes = bytes;
        }
    }

    /// Whether the sink failed.
    pub fn has_failed(&self) -> bool
        ensures { result ≡ self.now.failed }
    {
        self.failed
    }

    /// Writes what waits, in one write.
    pub fn flush<K: Sink>(&mut self, sink: &mut K)
        ensures written { IsAllOut (K.held sink.old) (K.held sink.new) (K.failures sink.old) (K.failures sink.new)
            self.old self.new }
        ensures all_written { self.new.waiting ≡ [] }
    {
        self.failed = write_out(sink, &self.bytes, self.failed);
        self.bytes.clear();
    }

    /// Takes the PDUs of a turn in, and writes what waits where it is enough; a Reject has the header segment's bytes as
    /// its data.
    pub fn fill<K: Sink>(&mut self, sink: &mut K, bhs: &[u8; BHS_LENGTH], pdus: &Pdus<'_>)
        requires reach { AreInReach pdus.now }
        ensures queued { IsQueued (K.held sink.old) (K.held sink.new) (K.failures sink.old) (K.failures sink.new)
            self.old self.new (bytes_of (sent_by bhs.now pdus.now)) }
        ensures few { length self.new.waiting < ENOUGH_TO_WRITE }
    {
        self.take_in(sink, bhs, pdus);
        if self.bytes.len() >= ENOUGH_TO_WRITE {
            self.flush(sink);
        }
    }

    // Takes the PDUs of a turn in, one behind the other.
    fn take_in<K: Sink>(&mut self, sink: &mut K, bhs: &[u8; BHS_LENGTH], pdus: &Pdus<'_>)
        requires reach { AreInReach pdus.now }
        ensures { IsQueued (K.held sink.old) (K.held sink.new) (K.failures sink.old) (K.failures sink.new)
            self.old self.new (bytes_of (sent_by bhs.now pdus.now)) }
    {
        match pdus {
            Pdus::Nothing => {}
            Pdus::Reject(reject) => self.put(sink, TargetHeader::Reject(*reject), bhs),
            Pdus::R2t(r2t) => self.put(sink, TargetHeader::R2t(*r2t), &[]),
            Pdus::Response(pdu) => self.put(sink, pdu.header, pdu.bytes),
            Pdus::Answer {
                data_ins,
                response,
                sense,
            } => {
                self.put_data_ins(sink, data_ins);
                self.put_response(sink, *response, sense);
            }
        }
    }

    // Takes all the memory, if it is there, where there is no room for so many bytes.
    fn widen_for(&mut self, n: usize)
        ensures { self.new ≡ self.old }
    {
        if !has_room(&self.bytes, n) && self.bytes.capacity() < OUTBOX_CAPACITY {
            self.renew(OUTBOX_CAPACITY);
        }
    }

    // Takes a PDU in, behind a write of what waits where there is no room for it.
    fn put<K: Sink>(&mut self, sink: &mut K, header: TargetHeader, segment: &[u8])
        requires short { length segment.now ≤ MAX_DATA_SEGMENT_LENGTH }
        ensures { IsQueued (K.held sink.old) (K.held sink.new) (K.failures sink.old) (K.failures sink.new)
            self.old self.new (spelling (Header.Target header) segment.now) }
    {
        let most = BHS_LENGTH + segment.len() + MOST_PADDING;
        self.widen_for(most);
        if has_room(&self.bytes, most) {
            append(&mut self.bytes, header, segment);
            return;
        }
        self.flush(sink);
        append(&mut self.bytes, header, segment);
    }

    // Takes the Data-In of a read in, one behind the other.
    fn put_data_ins<K: Sink>(&mut self, sink: &mut K, data_ins: &DataIns<'_>)
        requires reach { length data_ins.now.bytes.now ≤ 4294967295 }
        ensures { IsQueued (K.held sink.old) (K.held sink.new) (K.failures sink.old) (K.failures sink.new)
            self.old self.new (bytes_of (data_ins_of data_ins.now)) }
    {
        let mut data_sn = 0;
        let mut offset = 0;
        while (offset as usize) < data_ins.bytes.len() {
            let pdu = segment_at(data_ins, data_sn, offset);
            self.put(sink, TargetHeader::DataIn(pdu.header), pdu.bytes);
            offset += pdu.bytes.len() as u32;
            data_sn += 1;
        }
    }

    // Takes a SCSI Response in, with its sense, if any.
    fn put_response<K: Sink>(&mut self, sink: &mut K, response: ScsiResponse, sense: &Option<Sense>)
        ensures { IsQueued (K.held sink.old) (K.held sink.new) (K.failures sink.old) (K.failures sink.new)
            self.old self.new (spelling (Header.Target (TargetHeader.ScsiResponse response)) (sense_part sense.now)) }
    {
        let header = TargetHeader::ScsiResponse(response);
        match sense {
            None => self.put(sink, header, &[]),
            Some(sense) => self.put(sink, header, &sense_segment(sense)),
        }
    }
}

// Writes these bytes, unless the sink failed before or there are none: whether it failed.
fn write_out<K: Sink>(sink: &mut K, bytes: &[u8], failed: bool) -> bool
    ensures { IsAllOut (K.held sink.old) (K.held sink.new) (K.failures sink.old) (K.failures sink.new)
        (record { waiting = bytes.now; failed = failed }) (record { waiting = []; failed = result }) }
{
    if failed || bytes.is_empty() {
        return failed;
    }
    match sink.write_whole(bytes) {
        Ok(()) => false,
        Err(_) => true,
    }
}

// Whether there is room for so many bytes more.
fn has_room(bytes: &Vec<u8>, n: usize) -> bool
    requires { length bytes.now.items ≤ OUTBOX_CAPACITY }
    ensures { result ≡ true → (length bytes.now.items + n ≤ OUTBOX_CAPACITY) × (length bytes.now.items + n ≤ vec_capacity bytes.now) }
{
    bytes.capacity().min(OUTBOX_CAPACITY) - bytes.len() >= n
}

// Appends a PDU, for which there is room.
fn append(bytes: &mut Vec<u8>, header: TargetHeader, segment: &[u8])
    requires short { length segment.now ≤ MAX_DATA_SEGMENT_LENGTH }
    requires room { length bytes.old.items + BHS_LENGTH + length segment.now + MOST_PADDING ≤ vec_capacity bytes.old }
    ensures put { bytes.new.items ≡ bytes.old.items ++ spelling (Header.Target header) segment.now }
    ensures long { length bytes.new.items ≤ length bytes.old.items + BHS_LENGTH + length segment.now + MOST_PADDING }
    ensures kept { vec_capacity bytes.old ≤ vec_capacity bytes.new }
{
    let pdu = Pdu {
        header: Header::Target(header),
        data: segment,
    };
    match encode(&pdu, bytes) {
        Ok(()) => {}
        Err(_) => unreachable!(),
    }
}

// The data of a SCSI Response with sense: the length of the sense, and the sense.
fn sense_segment(sense: &Sense) -> [u8; SENSE_SEGMENT_LENGTH]
    ensures { result ≡ sense_part (Some sense.now) }
{
    let mut segment = [0; SENSE_SEGMENT_LENGTH];
    segment[1] = SENSE_LENGTH;
    segment[2..].copy_from_slice(&sense.to_bytes());
    segment
}
