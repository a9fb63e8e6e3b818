ghost use Rattle.std.specs.Prelude.{◌≡◌, ◌+◌};
ghost use Rattle.planning.specs.Regressions.{RegressionIsLawful};

// Holds the proof: regression is a lawful space.
fn lawful()
    ensures { RegressionIsLawful }
{}

// How many bytes a row may have at a variable with so many values: each value, and the mark. The product over the variables is the number of rows.
pub fn bytes_at(values: u8) -> u16
    ensures value { result ≡ values + 1 }
    ensures lawful { RegressionIsLawful }
{
    lawful();
    u16::from(values) + 1
}
