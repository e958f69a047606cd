//! Instances of modules.

/// Where an instance stands: for a substitution transition of another instance.
#[derive(Clone, Copy, Debug, PartialEq, Eq)]
pub struct PartOf {
    /// The number of that instance.
    pub instance: usize,
    /// The number of the substitution transition in the module of that instance.
    pub substitution: usize,
}

/// An instance of a module.
#[derive(Clone, Copy, Debug, PartialEq, Eq)]
pub struct Instance {
    /// The number of its module.
    pub of_module: usize,
    /// Where it stands. The instance of the top module stands nowhere.
    pub part_of: Option<PartOf>,
}
