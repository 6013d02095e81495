//! Visits over HTTP.
use crate::doors::keep_doors;
use crate::lobby::Lobby;
use crate::watch::Watch;
use std::alloc::Global;
use std::hash::RandomState;
use std::net::{Net, TcpListener, TcpStream};
use std::rt::Files;
use std::sync::Wait;
use std::thread;
use std::thread::Threads;
use std::time::Clock;
use web_pages::Settings;

/// How many visits are served at once. A visit is served while one of its requests gets its response, but not while its
/// octets are awaited.
pub const VISITORS: usize = 32;

/// Serves visits at the listener, follows the station's events, and reads the plan anew where its file changes. Returns only if the thread that follows can't be
/// started, or the system has no pair of sockets.
pub fn run_console<
    'x,
    R: Threads + Wait + Clock + Net<Listener = TcpListener, Stream = TcpStream> + Files + Sync,
>(
    rt: &'x R,
    alloc: Global,
    keys: RandomState,
    listener: &'x TcpListener,
    settings: &'x Settings,
    watch: &'x Watch<'x, R>,
) {
    let Ok(lobby) = Lobby::new(rt, alloc) else {
        return;
    };
    let lobby = &lobby;
    thread::scope(thread::scope_env(), rt, move |scope| {
        if scope.spawn(move || watch.follow_events()).is_err() {
            return;
        }
        for _ in 0..VISITORS {
            if scope
                .spawn(move || serve_visits(rt, alloc, lobby, settings, watch))
                .is_err()
            {
                break;
            }
        }
        keep_doors(rt, alloc, keys, listener, lobby, watch);
    });
}

// Serves one visit after another, as their octets come.
fn serve_visits<R: Wait + Clock + Net<Listener = TcpListener, Stream = TcpStream>>(
    rt: &R,
    alloc: Global,
    lobby: &Lobby,
    settings: &Settings,
    watch: &Watch<'_, R>,
) {
    for _ in rt.forever() {
        if let Some(mut visit) = lobby.next(rt)
            && let Ok(true) = visit.go_on(rt, alloc, settings, watch)
        {
            lobby.give_back(rt, visit);
        }
    }
}
