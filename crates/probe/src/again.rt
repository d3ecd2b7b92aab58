// The same call over and over, once at least, for whoever counts its cost: what the last one answers.
pub fn over_and_over<T: Copy, F: FnMut() -> T>(times: u32, mut call: F) -> T
    requires { F.IsAlwaysCallable call }
{
    for _ in 1..times {
        call();
    }
    call()
}
