// Checks 2 and 3: the table by itself.
ghost use Rattle.std.specs.Prelude.{◌≡◌, ◌≤◌, length};
ghost use Rattle.hazard.specs.Search.{first_of};
ghost use Rattle.hazard.specs.Refusal.{length_check, bytes_check, table_checks};
ghost use Rattle.refusal.specs.Answer.{refused_by};

use cube::inputs::Inputs;
use refusal::refusal::Refusal;

// 2: the table's length is not 2^n.
pub fn check_length(n: Inputs, table: &[u8]) -> Result<(), Refusal>
    ensures { refused_by result ≡ length_check n.count table.now }
{
    if table.len() != 1 << n.count {
        return Err(Refusal::TableLength);
    }
    Ok(())
}

// 3: a table byte above 2; the lowest such point.
pub fn check_bytes(table: &[u8]) -> Result<(), Refusal>
    requires { length table.now ≤ 1024 }
    ensures { refused_by result ≡ bytes_check table.now }
{
    match table.iter().position(|v| 2 < *v) {
        Some(x) => Err(Refusal::TableByte { point: x as u16 }),
        None => Ok(()),
    }
}

// Both.
pub fn table_checks(n: Inputs, table: &[u8]) -> Result<(), Refusal>
    ensures { refused_by result ≡ first_of (table_checks n.count table.now) }
{
    check_length(n, table)?;
    check_bytes(table)
}
