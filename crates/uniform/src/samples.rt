ghost use Rattle.std.specs.Prelude.{◌≡◌, length, refl};
ghost use Rattle.cost.specs.Kinds.{spend};
ghost use Rattle.planning.specs.Regressions.{regression};
ghost use Rattle.planning.specs.Samples.{sample};
ghost use Rattle.uniform.specs.Samples.{table, SampleRuns};
ghost use Rattle.planning.proofs.Regressions.{regression_lawful};
ghost use Rattle.uniform.specs.Acceptances.{accepted};

use crate::settings::Setting;

// Regression over the sample line, where a plan costs the sum of its prices.
#[derive(Drop, Copy, Clone)]
pub struct SampleLine;

impl Setting for SampleLine {
    ghost arithmetic = { spend };

    ghost space = { regression sample };

    ghost lawful = { (regression_lawful sample (accepted sample refl)).lawful };
}

// Holds the proof of the sample runs.
fn runs()
    ensures { SampleRuns }
{}

// How many runs over the sample line the table has; each ends as its line says.
pub fn sample_runs() -> usize
    ensures value { result ≡ length table }
    ensures shown { SampleRuns }
{
    runs();
    7
}
