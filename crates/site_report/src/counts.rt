// How often cells were asked.
ghost use Rattle.std.specs.Prelude.{◌≡◌, ◌<◌, ◌≤◌, ◌*◌, ◌^◌, All, length, sum};
ghost use Rattle.isolate_run.specs.declared.ended.Ended.{Ended};
ghost use Rattle.site_report.specs.Report.{count_at, count_of};

use isolate_run::Ended;

/// How often these entries asked the cell of a site.
#[tactic(auto, unfolding(crate::specs::Report::count_at))]
pub fn count_at(ended: &[Ended], site: usize) -> u128
    requires few { length ended.now ≤ 64 }
    requires counted { All (λ (e : Ended). site < length e.calls.items) ended.now }
    ensures { result ≡ count_at ended.now site }
{
    let mut count = 0;
    for entry in ended {
        count += u128::from(entry.calls[site]);
    }
    count
}

fn sum_of(counts: &[u64]) -> u128
    ensures sum { result ≡ sum counts.now }
    ensures small { result ≤ length counts.now * 2 ^ 64 }
{
    let mut total = 0;
    for count in counts {
        total += u128::from(*count);
    }
    total
}

/// How often these entries asked a cell.
#[tactic(auto, unfolding(crate::specs::Report::count_of))]
pub fn count_of(ended: &[Ended]) -> u128
    requires few { length ended.now ≤ 64 }
    requires small { All (λ (e : Ended). length e.calls.items ≤ 65536) ended.now }
    ensures { result ≡ count_of ended.now }
{
    let mut total = 0;
    for entry in ended {
        total += sum_of(&entry.calls);
    }
    total
}
