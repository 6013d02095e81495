//! The entity of a run, over queues that bear the run's name.
ghost use Rattle.shared_entity.specs.Opening.{AreQueuesFor};

use crate::opening::{Sockets, Starting, Streams};
use crate::threads::serve_over;
use entity_config::Config;
use event_log::LogFiles;
use program_start::{FileReader, ProgramFault};
use server_opening::Kept;
use server_recording::ServerFiles;
use shared_entity::{Entity, queues_of};
use shared_lanes::Names;
use std::io::{BufRead, Write};
use std::marker::Brand;
use std::rt::Files;
use std::sync::Wait;
use std::thread::Threads;
use std::time::Clock;
use user_queues::Queues;

/// Opens an entity with its queues, and serves.
pub(crate) fn serve_named<
    R: Threads + Wait + Clock + Files + AllocGlobal + Copy + Drop + Send + Sync,
    F: FileReader + ServerFiles + LogFiles + Sync,
    B: BufRead + Send + Drop,
    W: Write + Drop,
>(
    starting: &Starting<'_, R, F>,
    config: Config,
    sockets: Sockets<'_>,
    kept: Kept<R>,
    streams: Streams<B, W>,
) -> Result<u8, ProgramFault> {
    let queues = queues_of(*starting.rt, starting.alloc, &config)?;
    serve_opened::<Brand, R, F, B, W>(starting, config, queues, sockets, kept, streams)
}

fn serve_opened<
    N: Names + Send + Sync,
    R: Threads + Wait + Clock + Files + AllocGlobal + Copy + Drop + Send + Sync,
    F: FileReader + ServerFiles + LogFiles + Sync,
    B: BufRead + Send + Drop,
    W: Write + Drop,
>(
    starting: &Starting<'_, R, F>,
    config: Config,
    queues: Queues<R>,
    sockets: Sockets<'_>,
    kept: Kept<R>,
    streams: Streams<B, W>,
) -> Result<u8, ProgramFault>
    requires { AreQueuesFor N.queue N.lanes config queues }
{
    let (entity, ports) = Entity::<N, R>::open(starting.alloc, config, queues)?;
    serve_over(starting, &entity, ports, sockets, kept, streams)
}
