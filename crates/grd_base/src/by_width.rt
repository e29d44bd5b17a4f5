/// Calls a function whose last generic parameter is a width, with the least width of 1, 2, 4, .., 64
/// words that holds the atoms. There are at most 4,096 of them. A `_` stands for a type parameter
/// before the width.
#[macro_export]
macro_rules! by_width {
    ($atoms:expr, $call:ident($($argument:expr),* $(,)?)) => {{
        let atoms: u32 = $atoms;
        if atoms <= 64 {
            $call::<1>($($argument),*)
        } else if atoms <= 128 {
            $call::<2>($($argument),*)
        } else if atoms <= 256 {
            $call::<4>($($argument),*)
        } else if atoms <= 512 {
            $call::<8>($($argument),*)
        } else if atoms <= 1024 {
            $call::<16>($($argument),*)
        } else if atoms <= 2048 {
            $call::<32>($($argument),*)
        } else {
            $call::<64>($($argument),*)
        }
    }};
    ($atoms:expr, $call:ident::<_>($($argument:expr),* $(,)?)) => {{
        let atoms: u32 = $atoms;
        if atoms <= 64 {
            $call::<_, 1>($($argument),*)
        } else if atoms <= 128 {
            $call::<_, 2>($($argument),*)
        } else if atoms <= 256 {
            $call::<_, 4>($($argument),*)
        } else if atoms <= 512 {
            $call::<_, 8>($($argument),*)
        } else if atoms <= 1024 {
            $call::<_, 16>($($argument),*)
        } else if atoms <= 2048 {
            $call::<_, 32>($($argument),*)
        } else {
            $call::<_, 64>($($argument),*)
        }
    }};
}
