//! Results in the order of their jobs.
ghost use Rattle.std.specs.Prelude.{◌≡◌, ℕ, ◌<◌, All, IfOk, IsSome, None, Some, length, map, replicate};
ghost use Rattle.job_deal.specs.Counts.{EachOnce};
ghost use Rattle.job_deal.specs.Results.{InPlace, jobs_of, put_all, results_in};

use ds_base::NoMemory;
use std::alloc::{AllocError, Global};

fn empty_places<T: Drop>(alloc: Global, jobs: u32) -> Result<Vec<Option<T>>, AllocError>
    ensures { IfOk result (λ places. places.items ≡ replicate jobs None) }
{
    let mut places = Vec::new(alloc);
    for _ in 0..jobs {
        places.push(None)?;
    }
    Ok(places)
}

/// Puts each result of a part in the place of its job.
fn put_part<T: Drop>(places: &mut Vec<Option<T>>, part: Vec<(u32, T)>)
    requires { All (λ r. r.0 < length places.old.items) part.items }
    ensures { places.new.items ≡ put_all places.old.items part.items }
{
    for (job, result) in part {
        places[job as usize] = Some(result);
    }
}

/// What stands in the places, of which none is empty.
fn filled<T: Drop>(alloc: Global, places: Vec<Option<T>>) -> Result<Vec<T>, AllocError>
    requires { All (λ place. IsSome place) places.items }
    ensures { IfOk result (λ items. map Some items.items ≡ places.items) }
{
    let mut items = Vec::new(alloc);
    for place in places {
        items.push(place.unwrap())?;
    }
    Ok(items)
}

/// The results of all parts in the order of their jobs. Each is moved, and none is copied.
///
/// Each job below `jobs` has one result in the parts. The only error is want of memory.
pub fn collect<T: Drop>(
    alloc: Global,
    jobs: u32,
    parts: Vec<Vec<(u32, T)>>,
) -> Result<Vec<T>, NoMemory>
    requires { EachOnce jobs (jobs_of (results_in parts.items)) }
    ensures { IfOk result (λ items. InPlace jobs (results_in parts.items) items.items) }
{
    let mut places = empty_places(alloc, jobs)?;
    for part in parts {
        put_part(&mut places, part);
    }
    Ok(filled(alloc, places)?)
}
