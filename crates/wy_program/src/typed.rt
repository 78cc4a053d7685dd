//! From the tree of a text to a program whose type says that it is one.

ghost use Rattle.std.specs.Prelude.{◌≡◌, ◌<◌, ◌≤◌, ◌^◌, IfOk, IfErr, length, map, slice_get, Err, Ok, Some};
ghost use Rattle.wy_elab_stmt.specs.Elaborates.{Elaborates, ElaboratesTo};
ghost use Rattle.wy_kernel.specs.Parts.{program_of};
ghost use Rattle.wy_kernel.specs.Program.{body, method};
ghost use Rattle.wy_kernel.specs.View.{body_of};
ghost use Rattle.wy_program.specs.Texts.{Reads};
ghost use Rattle.wy_typing.specs.Sites.{HasSites};
ghost use Rattle.wy_syntax.specs.Declarations.{unit};
ghost use Rattle.wy_tree.specs.Ast.{view};
ghost use Rattle.wy_tree.specs.Tokens.{spanned_token, token_limit};
ghost use Rattle.wy_typing.specs.Programs.{IsProgram};

use crate::laws::texts_are_programs;
use law_program_parts::trees_declare_few;
use law_sites::sites_are_tokens;
use std::alloc::Global;
use wy_constant::TypeError;
use wy_elab_stmt::elaborate;
use wy_kernel::form::Body;
use wy_kernel::program::Program;
use wy_tree::token::Spanned;
use wy_tree::tree::Tree;

/// A program that fits its types: its numbers are those of its parts, each of its forms has a type, objects are made of classes alone
/// that are neither abstract nor interfaces, and main, each constructor that is called, the method of each static or direct call,
/// and each method that such an object runs have bodies.
///
/// What its text declares stands at tokens of the text, each of which has a line, and so do the statements and locals of its bodies,
/// and the forms that have a site; the sites in the body of a method of the library are that of the method, 2^31 and more. A `u32`
/// counts its parts.
#[derive(Drop)]
pub struct TypedProgram {
    pub program: Program,
    pub ghost fits: { ∥ IsProgram (program_of program) ∥₁ },
    pub ghost stands: { ∥ HasSites (length program.lines.items) (program_of program) ∥₁ },
    pub ghost few_classes: { length program.classes.items < 2 ^ 32 },
    pub ghost few_methods: { length program.methods.items < 2 ^ 32 },
    pub ghost few_fields: { length program.fields.items < 2 ^ 32 },
    pub ghost few_texts: { length program.fixed_texts.items < 2 ^ 32 },
    pub ghost few_tokens: { length program.lines.items ≤ token_limit },
}

impl TypedProgram {
    /// The body of main, with which a run begins once the classes are initialized (JLS 12.1.4).
    pub fn main_body(&self) -> &Body
        ensures { body (program_of self.now.program) (program_of self.now.program).main
            ≡ Some (body_of result.now) }
    {
        self.program.body(self.program.main).unwrap()
    }

    /// The line of the name of main, which the text declares.
    pub fn main_line(&self) -> u32
        ensures { slice_get self.now.program.lines.items (method (program_of self.now.program)
            (program_of self.now.program).main).site ≡ Some result }
    {
        let main = self.program.method(self.program.main);
        self.program.line(main.site)
    }
}

/// The program of a text's tree with these tokens, or the first rule that it breaks (JLS 7.3), as `wy_elab_stmt::elaborate` says.
pub fn typed_program(
    alloc: Global,
    tree: &Tree,
    tokens: &[Spanned],
) -> Result<TypedProgram, TypeError>
    requires few { length tokens.now ≤ token_limit }
    requires read { Reads (map spanned_token tokens.now) (view tree.now) }
    ensures found { IfOk result (λ p.
        Elaborates (unit 0 (view tree.now)) (length tokens.now) (Ok (program_of p.program))) }
    ensures lines { IfOk result (λ p. p.program.lines.items ≡ map (λ t. t.line) tokens.now) }
    ensures refused { IfErr result (λ e.
        ElaboratesTo (unit 0 (view tree.now)) (length tokens.now) (Err e)) }
{
    let program = elaborate(alloc, tree, tokens)?;
    texts_are_programs();
    sites_are_tokens();
    trees_declare_few();
    Ok(TypedProgram { program })
}
