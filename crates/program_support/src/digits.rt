// A number as text, in decimal digits.
ghost use Rattle.std.specs.Prelude.{◌≡◌, ◌<◌, ◌≤◌, length, take, drop};
ghost use Rattle.program_support.specs.Digits.{last_digits, IsDigitCount};

// Puts n's decimal digits at the start of out, and returns how many there are.
pub fn decimal(n: u64, out: &mut [u8; 20]) -> usize
    ensures within { result ≤ 20 }
    ensures count { IsDigitCount 10 1 n result }
    ensures digits { take result out.new ≡ last_digits 10 result n }
    ensures rest { drop result out.new ≡ drop result out.old }
{
    let k = n.max(1).ilog10() as usize + 1;
    write_digits(n, k, out);
    k
}

// Puts the last k digits of n at the start of out.
fn write_digits(n: u64, k: usize, out: &mut [u8])
    requires { k ≤ length out.old }
    ensures digits { take k out.new ≡ last_digits 10 k n }
    ensures rest { drop k out.new ≡ drop k out.old }
{
    let mut rest = n;
    for i in (0..k).rev() {
        out[i] = b'0' + (rest % 10) as u8;
        rest /= 10;
    }
}
