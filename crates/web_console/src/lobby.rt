//! Visits between the thread that waits for their octets and those that serve them.
use crate::visit::Visit;
use std::alloc::{AllocError, Global};
use std::collections::VecDeque;
use std::io::{Read, Write};
use std::net::Net;
use std::os::fd::AsRawFd;
use std::os::unix::net::UnixStream;
use std::sync::{Condvar, Mutex, Wait};
use std::{io, mem};

/// Visits that can go on, and visits that wait for octets again.
#[derive(Drop)]
pub(crate) struct Lobby {
    alloc: Global,
    ready: Mutex<VecDeque<Visit>>,
    came: Condvar,
    back: Mutex<Vec<Visit>>,
    // an octet comes at one end where a visit was given back at the other
    bell: UnixStream,
    button: UnixStream,
}

impl Lobby {
    /// A lobby without visits.
    pub(crate) fn new<R: Net>(rt: &R, alloc: Global) -> io::Result<Lobby> {
        let (bell, button) = UnixStream::pair(rt)?;
        bell.set_nonblocking(true)?;
        button.set_nonblocking(true)?;
        Ok(Lobby {
            alloc,
            ready: Mutex::new(VecDeque::new(alloc)),
            came: Condvar::new(),
            back: Mutex::new(Vec::new(alloc)),
            bell,
            button,
        })
    }

    /// Hands over a visit that can go on.
    pub(crate) fn admit<R: Wait>(&self, rt: &R, visit: Visit) -> Result<(), AllocError> {
        let pushed = self.ready.lock(rt).push_back(visit);
        self.came.notify_one();
        match pushed {
            Ok(()) => Ok(()),
            Err(_) => Err(AllocError),
        }
    }

    /// Waits for a visit that can go on.
    pub(crate) fn next<R: Wait>(&self, rt: &R) -> Option<Visit> {
        let mut ready = self
            .came
            .wait_while(rt, self.ready.lock(rt), |ready| ready.is_empty());
        ready.pop_front()
    }

    /// Gives back a visit that waits for octets. If there is no memory for it, it is over.
    pub(crate) fn give_back<R: Wait>(&self, rt: &R, visit: Visit) {
        let _kept = self.back.lock(rt).push(visit);
        let mut button = &self.button;
        let _rung = button.write(b".".as_slice());
    }

    /// The descriptor at which octets come when visits are given back.
    pub(crate) fn bell(&self) -> i32 {
        self.bell.as_raw_fd()
    }

    /// Takes the visits that were given back.
    pub(crate) fn take_back<R: Wait>(&self, rt: &R) -> Vec<Visit> {
        let mut octets = [0u8; 64];
        let mut bell = &self.bell;
        let _heard = bell.read(octets.as_mut_slice());
        mem::replace(&mut *self.back.lock(rt), Vec::new(self.alloc))
    }
}
