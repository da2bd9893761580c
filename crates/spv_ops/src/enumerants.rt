// The enumerants that a module of the profile may have as words, by their names (SPIR-V 1.6, section 3).
ghost use Rattle.std.specs.Prelude.{◌≡◌};
ghost use Rattle.spv_ops.specs.Enumerants as numbers;

/// A storage class (SPIR-V 1.6, section 3.7).
#[derive(Clone, Copy, Debug)]
pub enum StorageClass {
    Input = 1,
    Uniform = 2,
    Workgroup = 4,
    Private = 6,
    Function = 7,
    PushConstant = 9,
    StorageBuffer = 12,
}

impl StorageClass {
    /// Its number.
    #[inline(always)]
    pub fn number(self) -> u32
        ensures { result ≡ numbers.class_number self }
    {
        self as u32
    }

    /// The one with this number.
    pub fn of(number: u32) -> Option<StorageClass>
        ensures { result ≡ numbers.class_of_number number }
    {
        match number {
            1 => Some(StorageClass::Input),
            2 => Some(StorageClass::Uniform),
            4 => Some(StorageClass::Workgroup),
            6 => Some(StorageClass::Private),
            7 => Some(StorageClass::Function),
            9 => Some(StorageClass::PushConstant),
            12 => Some(StorageClass::StorageBuffer),
            _ => None,
        }
    }
}

/// A decoration (SPIR-V 1.6, section 3.20).
#[derive(Clone, Copy, Debug)]
pub enum Decoration {
    RelaxedPrecision = 0,
    SpecId = 1,
    Block = 2,
    BufferBlock = 3,
    ArrayStride = 6,
    BuiltIn = 11,
    Restrict = 19,
    Aliased = 20,
    Volatile = 21,
    Coherent = 23,
    NonWritable = 24,
    NonReadable = 25,
    Binding = 33,
    DescriptorSet = 34,
    Offset = 35,
}

impl Decoration {
    /// Its number.
    #[inline(always)]
    pub fn number(self) -> u32
        ensures { result ≡ numbers.decoration_number self }
    {
        self as u32
    }

    /// The one with this number.
    pub fn of(number: u32) -> Option<Decoration>
        ensures { result ≡ numbers.decoration_of_number number }
    {
        match number {
            0 => Some(Decoration::RelaxedPrecision),
            1 => Some(Decoration::SpecId),
            2 => Some(Decoration::Block),
            3 => Some(Decoration::BufferBlock),
            6 => Some(Decoration::ArrayStride),
            11 => Some(Decoration::BuiltIn),
            19 => Some(Decoration::Restrict),
            20 => Some(Decoration::Aliased),
            21 => Some(Decoration::Volatile),
            23 => Some(Decoration::Coherent),
            24 => Some(Decoration::NonWritable),
            25 => Some(Decoration::NonReadable),
            33 => Some(Decoration::Binding),
            34 => Some(Decoration::DescriptorSet),
            35 => Some(Decoration::Offset),
            _ => None,
        }
    }
}

/// What a variable or constant is in place of the program (SPIR-V 1.6, section 3.21).
#[derive(Clone, Copy, Debug)]
pub enum BuiltIn {
    NumWorkgroups = 24,
    WorkgroupSize = 25,
    WorkgroupId = 26,
    LocalInvocationId = 27,
    GlobalInvocationId = 28,
    LocalInvocationIndex = 29,
}

impl BuiltIn {
    /// Its number.
    #[inline(always)]
    pub fn number(self) -> u32
        ensures { result ≡ numbers.built_in_number self }
    {
        self as u32
    }

    /// The one with this number.
    pub fn of(number: u32) -> Option<BuiltIn>
        ensures { result ≡ numbers.built_in_of_number number }
    {
        match number {
            24 => Some(BuiltIn::NumWorkgroups),
            25 => Some(BuiltIn::WorkgroupSize),
            26 => Some(BuiltIn::WorkgroupId),
            27 => Some(BuiltIn::LocalInvocationId),
            28 => Some(BuiltIn::GlobalInvocationId),
            29 => Some(BuiltIn::LocalInvocationIndex),
            _ => None,
        }
    }
}

/// An execution model (SPIR-V 1.6, section 3.3).
#[derive(Clone, Copy, Debug)]
pub enum ExecutionModel {
    GLCompute = 5,
}

impl ExecutionModel {
    /// Its number.
    #[inline(always)]
    pub fn number(self) -> u32
        ensures { result ≡ numbers.model_number self }
    {
        self as u32
    }

    /// The one with this number.
    pub fn of(number: u32) -> Option<ExecutionModel>
        ensures { result ≡ numbers.model_of_number number }
    {
        match number {
            5 => Some(ExecutionModel::GLCompute),
            _ => None,
        }
    }
}

/// How pointers are addressed (SPIR-V 1.6, section 3.4).
#[derive(Clone, Copy, Debug)]
pub enum AddressingModel {
    Logical = 0,
}

impl AddressingModel {
    /// Its number.
    #[inline(always)]
    pub fn number(self) -> u32
        ensures { result ≡ numbers.addressing_number self }
    {
        self as u32
    }
}

/// The rules of memory (SPIR-V 1.6, section 3.5).
#[derive(Clone, Copy, Debug)]
pub enum MemoryModel {
    GLSL450 = 1,
}

impl MemoryModel {
    /// Its number.
    #[inline(always)]
    pub fn number(self) -> u32
        ensures { result ≡ numbers.memory_model_number self }
    {
        self as u32
    }
}

/// An execution mode (SPIR-V 1.6, section 3.6).
#[derive(Clone, Copy, Debug)]
pub enum ExecutionMode {
    LocalSize = 17,
    LocalSizeId = 38,
}

impl ExecutionMode {
    /// Its number.
    #[inline(always)]
    pub fn number(self) -> u32
        ensures { result ≡ numbers.mode_number self }
    {
        self as u32
    }

    /// The one with this number.
    pub fn of(number: u32) -> Option<ExecutionMode>
        ensures { result ≡ numbers.mode_of_number number }
    {
        match number {
            17 => Some(ExecutionMode::LocalSize),
            38 => Some(ExecutionMode::LocalSizeId),
            _ => None,
        }
    }
}

/// A capability (SPIR-V 1.6, section 3.31).
#[derive(Clone, Copy, Debug)]
pub enum Capability {
    Matrix = 0,
    Shader = 1,
}

impl Capability {
    /// Its number.
    #[inline(always)]
    pub fn number(self) -> u32
        ensures { result ≡ numbers.capability_number self }
    {
        self as u32
    }

    /// The one with this number.
    pub fn of(number: u32) -> Option<Capability>
        ensures { result ≡ numbers.capability_of_number number }
    {
        match number {
            0 => Some(Capability::Matrix),
            1 => Some(Capability::Shader),
            _ => None,
        }
    }
}

/// A scope of an atomic or a barrier (SPIR-V 1.6, section 3.27).
#[derive(Clone, Copy, Debug)]
pub enum Scope {
    Device = 1,
    Workgroup = 2,
    QueueFamily = 5,
}

impl Scope {
    /// Its number.
    #[inline(always)]
    pub fn number(self) -> u32
        ensures { result ≡ numbers.scope_number self }
    {
        self as u32
    }

    /// The one with this number.
    pub fn of(number: u32) -> Option<Scope>
        ensures { result ≡ numbers.scope_of_number number }
    {
        match number {
            1 => Some(Scope::Device),
            2 => Some(Scope::Workgroup),
            5 => Some(Scope::QueueFamily),
            _ => None,
        }
    }
}
