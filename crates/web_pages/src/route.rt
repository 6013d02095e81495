//! What can be asked for.
ghost use Rattle.std.specs.Prelude.{◌≡◌};
ghost use Rattle.web_pages.specs.Routes.{route_at};

/// What can be asked for.
#[derive(Clone, Copy, Debug, PartialEq, Eq)]
pub enum Route {
    /// The page: `/`.
    Page,
    /// The whole status as one JSON document: `/status.json`.
    Status,
    /// Events as server-sent events: `/events`.
    Events,
    /// The plan of windows: `/windows.json`.
    Windows,
    /// Numbers for Prometheus: `/metrics`.
    Metrics,
    /// Whether the station replies: `/healthz`.
    Health,
    /// Where commands go: `/command`.
    Command,
}

impl Route {
    /// The route at a path.
    pub(crate) fn at(path: &str) -> Option<Route>
        ensures { result ≡ route_at path.now }
    {
        match path {
            "/" => Some(Route::Page),
            "/status.json" => Some(Route::Status),
            "/events" => Some(Route::Events),
            "/windows.json" => Some(Route::Windows),
            "/metrics" => Some(Route::Metrics),
            "/healthz" => Some(Route::Health),
            "/command" => Some(Route::Command),
            _ => None,
        }
    }
}
