// Why shaping stopped before its end.
#[derive(Clone, Copy)]
pub(crate) enum Stop {
    // The hit limit is spent.
    HitLimit,
    // The run is too short.
    Room,
}
