//! The contents of a NAK.
ghost use Rattle.std.specs.Prelude.{◌≡◌, ◌≤◌, ◌++◌, IfOk, OnOk, map, take, length};
ghost use Rattle.cfdp_types.specs.declared.limits.TheConstants.{NAK_REQUESTS};
ghost use Rattle.receiver_table.specs.Answers.{request_of, last_end};
ghost use Rattle.receiver_parts.specs.Naks.{requests_for, nak_with};
ghost use Rattle.std.specs.List.{AllByRecursion};
ghost use Rattle.pdu_values.specs.Spelling.{RequestFits, NakFits};

use cfdp_types::limits::NAK_REQUESTS;
use gap_list::Run;
use pdu_values::{Nak, SegmentRequest, SegmentRequests};
use std::alloc::{AllocError, Global};

// The segment request for a run.
fn request_of(run: Run) -> SegmentRequest
    ensures request { result ≡ request_of run }
    ensures fits { RequestFits 4 result }
{
    SegmentRequest {
        start: u64::from(run.start),
        end: u64::from(run.end),
    }
}

// Appends a request for each run.
#[tactic(auto, using(crate::proofs::NakLemmas::fits_more))]
fn put_requests(requests: &mut SegmentRequests, runs: &[Run]) -> Result<(), AllocError>
    requires { AllByRecursion (RequestFits 4) requests.old }
    ensures fits { OnOk result (AllByRecursion (RequestFits 4) requests.new) }
    ensures requests { OnOk result (requests.new ≡ requests.old ++ map request_of runs.now) }
{
    for run in runs {
        requests.push(request_of(*run))?;
    }
    Ok(())
}

// The first runs, at most `most`.
fn front(runs: &[Run], most: usize) -> &[Run]
    ensures { result.now ≡ take most runs.now }
{
    &runs[..runs.len().min(most)]
}

// The requests for what is missing, at most as many as a NAK may hold.
#[tactic(auto, using(crate::proofs::NakLemmas::fits_more))]
fn requests_for(
    alloc: Global,
    has_metadata: bool,
    runs: &[Run],
) -> Result<SegmentRequests, AllocError>
    ensures requests { IfOk result (λ requests. requests ≡ take NAK_REQUESTS (requests_for has_metadata runs.now)) }
    ensures fits { IfOk result (λ requests. AllByRecursion (RequestFits 4) requests) }
{
    let mut requests = SegmentRequests::new(alloc);
    if has_metadata {
        put_requests(&mut requests, front(runs, NAK_REQUESTS))?;
    } else {
        requests.push(SegmentRequest { start: 0, end: 0 })?;
        put_requests(&mut requests, front(runs, NAK_REQUESTS - 1))?;
    }
    Ok(requests)
}

// The end of the last request.
fn last_end(requests: &[SegmentRequest]) -> u64
    ensures { result ≡ last_end requests.now }
{
    match requests.last() {
        None => 0,
        Some(request) => request.end,
    }
}

/// The NAK that requests the Metadata, if it is missing, and the runs, at most as many as it may hold. Its scope ends
/// at `scope`, or with the last request where some are left out.
#[tactic(auto, using(crate::proofs::NakLemmas::last_end_fits))]
pub fn nak(alloc: Global, has_metadata: bool, scope: u32, runs: &[Run]) -> Result<Nak, AllocError>
    ensures value { IfOk result (λ nak. nak ≡ nak_with has_metadata scope runs.now) }
    ensures few { IfOk result (λ nak. length nak.requests ≤ NAK_REQUESTS) }
    ensures fits { IfOk result (λ nak. NakFits 4 nak) }
{
    let requests = requests_for(alloc, has_metadata, runs)?;
    let count = runs.len() + usize::from(!has_metadata);
    let end = if count > NAK_REQUESTS {
        last_end(requests.as_slice())
    } else {
        u64::from(scope)
    };
    Ok(Nak {
        start: 0,
        end,
        requests,
    })
}
