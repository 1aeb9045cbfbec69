// Two square roots for the benchmark to count: that of the table, as the product reads it, and the computed one that
// the product had before document 02's request 3. Nothing of the product depends on this crate.
#![tactic(auto)]

ghost use Rattle.std.specs.Prelude.{◌≡◌, ◌≤◌};
ghost use Rattle.scaling.specs.Root.{root_of};

// Read from the table.
#[unsafe(no_mangle)]
pub extern "C" fn table_root(sample: u16) -> u16
    requires { sample ≤ 10000 }
    ensures { result ≡ root_of sample }
{
    scaling::root(sample)
}

// Computed by halving, so the loop counts nothing. The contract is that of `table_root`, so both that are counted give
// the same.
#[unsafe(no_mangle)]
pub extern "C" fn computed_root(sample: u16) -> u16
    requires { sample ≤ 10000 }
    ensures { result ≡ root_of sample }
{
    let n = 10000 * (sample as u32);
    let mut found: u32 = 0;
    let mut beyond: u32 = 10001;
    while found + 1 < beyond {
        let middle = found + (beyond - found) / 2;
        if middle * middle <= n {
            found = middle;
        } else {
            beyond = middle;
        }
    }
    found as u16
}
