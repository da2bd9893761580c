// What computing a value gives.
use spv_module::Value;
use spv_words::Memory;

/// A value, where there is one; an error only for want of memory.
pub type Computed = Result<Option<Value>, Memory>;
