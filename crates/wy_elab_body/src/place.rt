//! Where a statement stands: its site, and what it is there.

/// What a statement is at its site. The order is that of statements at one site.
#[derive(Clone, Copy, Debug, PartialEq, Eq)]
pub enum Role {
    /// The body of a class's initializer.
    InitializerBody,
    /// The body of a class's instance initializers.
    FieldsBody,
    /// The body of the constructor that a class doesn't declare.
    ConstructorBody,
    /// A constructor's call of the superclass's constructor.
    SuperCall,
    /// A constructor's call of the instance initializers.
    FieldsCall,
    /// A statement that is written there.
    Written,
}

/// The place of a statement among all of a program.
#[derive(Clone, Copy, Debug, PartialEq, Eq)]
pub struct Place {
    pub site: u32,
    pub role: Role,
}
