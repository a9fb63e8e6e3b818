ghost use Rattle.std.specs.Prelude.{◌≡◌, not, ◌==◌};
ghost use Rattle.rows.specs.Rows.{fits, fits_at, complete, complete_at, valued, usable};

// The byte of a row that leaves its variable undefined.
pub const MARK: u8 = 255;

// The most variables that a task can have.
pub const MOST_VARIABLES: usize = 64;

// Whether a byte is the mark or a value of a variable with n values.
fn fits_byte(n: u8, b: u8) -> bool
    ensures { result ≡ fits_at n b }
{
    b == MARK || b < n
}

// Whether a byte is a value of a variable with n values.
fn is_value(n: u8, b: u8) -> bool
    ensures { result ≡ complete_at n b }
{
    b != MARK && b < n
}

// Whether a variable with n values has one.
fn has_value(n: u8) -> bool
    ensures { result ≡ not (n == 0) }
{
    n != 0
}

// Whether the row has one byte for each variable, each a value of its variable or the mark.
pub fn fits(values: &[u8], row: &[u8]) -> bool
    ensures { result ≡ fits values.now row.now }
{
    row.len() == values.len() && values.iter().zip(row).all(|(n, b)| fits_byte(*n, *b))
}

// Whether the row has one byte for each variable, each a value of its variable.
pub fn is_complete(values: &[u8], row: &[u8]) -> bool
    ensures { result ≡ complete values.now row.now }
{
    row.len() == values.len() && values.iter().zip(row).all(|(n, b)| is_value(*n, *b))
}

// Whether every variable has a value.
pub fn has_values(values: &[u8]) -> bool
    ensures { result ≡ valued values.now }
{
    values.iter().all(|n| has_value(*n))
}

// Whether a task can have this values table: 1 to 64 variables, each with a value.
pub fn is_usable(values: &[u8]) -> bool
    ensures { result ≡ usable values.now }
{
    !values.is_empty() && values.len() <= MOST_VARIABLES && has_values(values)
}
