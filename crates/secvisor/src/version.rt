// Which program this is.

/// The version, and the kit that it is proved with.
pub const VERSION: &str = "\
secvisor, not yet tagged
proved with rattle-kit-13f logic dac8208d650f15bf
";
