// Which timeout is meant.
ghost use Rattle.std.specs.Prelude.{◌≡◌};
ghost use Rattle.invoke.specs.Fields.{effective_timeout};

// The timeout that is meant: a field of 0 and no field are none.
pub fn effective_timeout(timeout: Option<u32>) -> Option<u32>
    ensures { result ≡ effective_timeout timeout }
{
    timeout.filter(|ms| *ms != 0)
}
