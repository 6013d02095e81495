ghost use Rattle.std.specs.Prelude.{◌≡◌, true, false};
ghost use Rattle.entity_parts.specs.Asking.{MayRequest};

use entity_config::Config;
use entity_routing::Request;

/// Whether a request is admissible: the user is one of the entity's, and a Put names one of the user's sending lanes.
pub fn may_request(config: &Config, user: usize, request: &Request) -> bool
    ensures may { result ≡ true → MayRequest config.now user request.now }
    ensures never { result ≡ false → MayRequest config.now user request.now → ⊥ }
{
    match request {
        Request::Put(lane, _) => user < config.users() && *lane < config.entity().put_lanes,
        _ => user < config.users(),
    }
}
