//! Where clients command a server, and where they only look.
use program_control::ControlSocket;
use program_start::ProgramFault;
use station_config::ControlSettings;
use std::alloc::Global;
use std::net::Net;
use std::rt::Files;

/// Opens the socket where clients command a server, and the one where they only look, if the settings name one.
pub fn control_sockets<R: Net + Files>(
    rt: &R,
    alloc: Global,
    told: &ControlSettings,
) -> Result<(ControlSocket, Option<ControlSocket>), ProgramFault> {
    let path = told.socket.as_str();
    let Ok(socket) = ControlSocket::open_for(rt, alloc, path, Some(told.mode)) else {
        return Err(ProgramFault::Bind);
    };
    let Some(beside) = &told.status_socket else {
        return Ok((socket, None));
    };
    match ControlSocket::open_for(rt, alloc, beside.as_str(), Some(told.mode)) {
        Ok(watched) => Ok((socket, Some(watched.for_watchers()))),
        Err(_) => {
            socket.leave(rt, path);
            Err(ProgramFault::Bind)
        }
    }
}
