//! One connection of an initiator.
use std::alloc::Global;
use std::io::{ErrorKind, Read, Write};
use std::net::{Net, Shutdown, SocketAddrV4, TcpListener, TcpStream};
use std::test::Fail;
use std::time::Duration;

/// So many seconds it waits for an answer.
const PATIENCE: u64 = 20;

/// A connection by which PDUs go out, numbered as it goes, and come in.
#[derive(Drop)]
pub struct Host {
    stream: TcpStream,
    // The tag and the CmdSN of the last request behind the login.
    number: u32,
    // What it expects next.
    exp_stat_sn: u32,
    // At most so many bytes go out at once.
    piece: usize,
}

/// Puts a number into a header segment.
pub fn put_number(pdu: &mut [u8], place: usize, number: u32) {
    if let Some(field) = pdu.get_mut(place..place.saturating_add(4)) {
        for (to, from) in field.iter_mut().zip(number.to_be_bytes()) {
            *to = from;
        }
    }
}

// The number of four bytes there.
fn number_at(pdu: &[u8], place: usize) -> u32 {
    match pdu.get(place..place.saturating_add(4)) {
        Some([a, b, c, d]) => u32::from_be_bytes([*a, *b, *c, *d]),
        _ => 0,
    }
}

/// Whether this is a Text Response with this data segment.
pub fn is_text(came: &[u8], text: &[u8]) -> bool {
    let length = (number_at(came, 4) & 0xFF_FFFF) as usize;
    match came.get(48..length.saturating_add(48)) {
        Some(data) => came.first().copied() == Some(0x24) && data == text,
        None => false,
    }
}

impl Host {
    /// Connects to this portal.
    pub fn connect<R: Net<Listener = TcpListener, Stream = TcpStream>>(
        rt: &R,
        portal: SocketAddrV4,
    ) -> Result<Host, Fail> {
        let stream = TcpStream::connect(rt, portal)?;
        stream.set_read_timeout(Some(Duration::from_secs(PATIENCE)))?;
        Ok(Host {
            stream,
            number: 0,
            exp_stat_sn: 0,
            piece: usize::MAX,
        })
    }

    /// Sends a PDU. A request behind the login gets the next tag and CmdSN; Data-Out the tag of the request before.
    pub fn send(&mut self, pdu: &mut [u8]) -> Result<(), Fail> {
        let opcode = pdu.first().copied().unwrap_or(0) & 0x3F;
        if opcode != 0x03 {
            if opcode != 0x05 {
                self.number = self.number.wrapping_add(1);
                put_number(pdu, 24, self.number);
            }
            put_number(pdu, 16, self.number);
            put_number(pdu, 28, self.exp_stat_sn);
        }
        self.send_as_is(pdu)
    }

    /// Sends these bytes.
    pub fn send_as_is(&self, bytes: &[u8]) -> Result<(), Fail> {
        let mut stream: &TcpStream = &self.stream;
        for piece in bytes.chunks(self.piece.max(1)) {
            stream.write_all(piece)?;
        }
        Ok(())
    }

    /// From now on all goes out in pieces of so many bytes.
    pub fn send_in_pieces(&mut self, piece: usize) -> Result<(), Fail> {
        self.stream.set_nodelay(true)?;
        self.piece = piece;
        Ok(())
    }

    /// Sends no more: for the target its input ends.
    pub fn end_output(&self) -> Result<(), Fail> {
        Ok(self.stream.shutdown(Shutdown::Write)?)
    }

    /// The next PDU that comes, with its data segment and its padding.
    pub fn receive(&mut self, alloc: Global) -> Result<Vec<u8>, Fail> {
        let mut pdu = vec![in alloc; 0u8; 48]?;
        let mut stream: &TcpStream = &self.stream;
        stream.read_exact(pdu.as_mut_slice())?;
        let length = (number_at(pdu.as_slice(), 4) & 0xFF_FFFF) as usize;
        let mut data = vec![in alloc; 0u8; length.next_multiple_of(4)]?;
        stream.read_exact(data.as_mut_slice())?;
        pdu.extend_from_slice(data.as_slice())?;
        self.count(pdu.as_slice());
        Ok(pdu)
    }

    // Takes the StatSN of an answer. Data-In and R2T have none of their own.
    fn count(&mut self, pdu: &[u8]) {
        if !matches!(pdu.first(), Some(0x25) | Some(0x31)) {
            self.exp_stat_sn = number_at(pdu, 24).wrapping_add(1);
        }
    }

    /// Whether this is what came. Behind the login the numbers of the session are not compared, and the tag is that of the
    /// last request.
    pub fn is_answer(&self, came: &[u8], wanted: &mut [u8]) -> bool {
        if wanted.first() != Some(&0x23) {
            put_number(wanted, 16, self.number);
            put_number(wanted, 24, number_at(came, 24));
            put_number(wanted, 28, number_at(came, 28));
            put_number(wanted, 32, number_at(came, 32));
        }
        came == wanted
    }

    /// Waits until something has come, and leaves it there.
    pub fn hear(&self) -> Result<(), Fail> {
        self.stream.peek(&mut [0; 1])?;
        Ok(())
    }

    /// Waits until the target closes the connection: whether it does, and nothing more comes before.
    pub fn is_over(&mut self) -> bool {
        let mut stream: &TcpStream = &self.stream;
        match stream.read(&mut [0; 1]) {
            Ok(count) => count == 0,
            Err(e) => e.kind() == ErrorKind::ConnectionReset,
        }
    }
}
