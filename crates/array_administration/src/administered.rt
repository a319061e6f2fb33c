//! An array that is served, as the window and the control socket ask it.

use array_view::Registration;
use event_log::Log;
use scsi_types::Group;
use status::Row;
use std::alloc::Global;
use std::io::{self, Write};
use std::net::SocketAddrV4;
use std::sync::Wait;
use std::time::Clock;

/// What is asked of an array that is served: by this trait who asks has one type for all that it is made of.
pub trait Administered {
    /// What happens is told to it.
    fn log(&self) -> &Log;

    /// Where the portals of a controller listen.
    fn portals(&self, controller: Group) -> &[SocketAddrV4];

    /// How many units there are.
    fn count(&self) -> usize;

    /// The row of the unit at a place, where there is one.
    fn row<R: Wait>(&self, rt: &R, place: usize) -> Option<Row>;

    /// The registrations of the unit at a place. None: a command has the unit for long, or there was no memory.
    fn registrations(&self, alloc: Global, place: usize) -> Option<Vec<Registration>>;

    /// Writes a line for each unit.
    fn say_status<R: Wait + Clock, W: Write>(&self, rt: &R, writer: &mut W) -> io::Result<()>;

    /// Takes a controller down. The first unit that does not move is told.
    fn down<R: Wait + Clock>(&self, rt: &R, controller: Group) -> Result<(), usize>;

    /// Brings a controller up. The first unit that does not move is told.
    fn up<R: Wait + Clock>(&self, rt: &R, controller: Group) -> Result<(), usize>;

    /// From now on no command is taken in; all that each unit holds is made to last, as far as it can. The first unit of which it cannot
    /// is told.
    fn quit<R: Wait + Clock>(&self, rt: &R) -> Result<(), u8>;

    /// Ends the connection of the session with this TSIH, where one lives: whether one does.
    fn shut<R: Wait>(&self, rt: &R, tsih: u16) -> bool;

    /// Whether a session with this TSIH lives. Once it does not, no command of it reaches a unit any more.
    fn lives<R: Wait>(&self, rt: &R, tsih: u16) -> bool;
}
