//! Tests of the array and of the program that serves it: over real files, through the portals of both controllers (`whole`); of the lines
//! of its console, over units that count (`lines`); of what `quit` does with the product's units; and of who reaches the control socket.
#![tactic(auto)]

#[cfg(test)]
mod ends;
#[cfg(test)]
mod lines;
#[cfg(test)]
mod quits;
#[cfg(test)]
mod strangers;
#[cfg(test)]
mod whole;
