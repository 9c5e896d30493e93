// Numbers as decimal text, put into a list of bytes at a place.
#![tactic(auto)]

ghost use Rattle.std.specs.Prelude.{◌≡◌, [], ◌∷◌, ◌++◌, ◌+◌, ◌≤◌, length};
ghost use Rattle.chain.specs.After.{after};
ghost use Rattle.decimal.specs.Text.{decimal, appended};

use words::slices;

// A number's digits at `at`; answers where they end.
pub fn put_number(out: &mut [u8], at: usize, n: u64) -> usize
    requires { at + 20 ≤ length out.old }
    ensures text { after result out.new ≡ appended (decimal n) at out.old }
    ensures room { result ≤ at + 20 }
{
    let mut digits = [0u8; 20];
    let k = io::decimal(n, &mut digits);
    slices::copy(out, at, &digits[..k], k);
    at + k
}

pub fn put_byte(out: &mut [u8], at: usize, c: u8) -> usize
    requires { at + 1 ≤ length out.old }
    ensures { after result out.new ≡ appended (c ∷ []) at out.old }
{
    out[at] = c;
    at + 1
}

// A number and the character after it.
pub fn put_field(out: &mut [u8], at: usize, n: u64, c: u8) -> usize
    requires { at + 21 ≤ length out.old }
    ensures text { after result out.new ≡ appended (decimal n ++ (c ∷ [])) at out.old }
    ensures room { result ≤ at + 21 }
{
    let end = put_number(out, at, n);
    put_byte(out, end, c)
}
