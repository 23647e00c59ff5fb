// Clearing what was lent.
ghost use Rattle.std.specs.Prelude.{◌≡◌, length, replicate};

// Every byte becomes 0.
#[unsafe(no_mangle)]
pub extern "C" fn relay_clear(buf: &mut [u8])
    ensures { buf.new ≡ replicate (length buf.old) 0 }
{
    store_bytes::clear(buf);
}
