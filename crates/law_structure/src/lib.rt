//! What holds of the statements of every program that a text becomes. The functions do nothing: their contracts are the laws.
#![tactic(auto)]

ghost use Rattle.std.specs.Prelude.{ℕ, ◌≤◌, length, Ok};
ghost use Rattle.wy_tree.specs.Ast.{Ast, tokens};
ghost use Rattle.wy_tree.specs.Grammar.{WellFormed};
ghost use Rattle.wy_kernel.specs.Program.{Program};
ghost use Rattle.wy_syntax.specs.Declarations.{unit};
ghost use Rattle.wy_members.specs.Declarations.{CompilationUnit};
ghost use Rattle.wy_elab_stmt.specs.Elaborates.{Elaborates};
ghost use Rattle.law_structure.specs.Numbers.{AreDense, AreInOrder};
ghost use Rattle.law_structure.specs.Jumps.{AllJumpsGoOut};
ghost use Rattle.law_structure.specs.Reaches.{AllReach};
ghost use Rattle.law_structure.specs.Outermost.{AllTestsReachAsFar};
ghost use Rattle.law_structure.specs.Sites.{TestsStandApart};
ghost use Rattle.wy_tree.specs.Tokens.{token_limit};

/// In the program of a well-formed tree the numbers of the statements are those below their count, and each is the number of one
/// statement.
pub fn each_number_is_one_statement()
    ensures { (tree : Ast) → WellFormed tree → (count : ℕ) (p : Program)
        → Elaborates (unit 0 tree) count (Ok p) → AreDense p }
{}

/// In the program of a well-formed tree the library's statements have the first numbers, and those of the text follow in the order
/// of their sites.
pub fn numbers_follow_the_text()
    ensures { (tree : Ast) → WellFormed tree → (count : ℕ) (p : Program)
        → Elaborates (unit 0 tree) count (Ok p) → AreInOrder p }
{}

/// A `break` or a `continue` goes to the end of a statement of its body that it stands in, or that it is: of a loop, of a labelled
/// statement, or of the body of a loop. The test of a statement reaches to the end of a statement of its body that it stands in, or
/// of its own, and a statement without a test has no reach: it reaches to the end of the outermost statement around it that a jump
/// (`break`, `continue`, `return` or `throw`) in its guarded part goes to, and to its own end where none does.
pub fn jumps_and_tests_go_out()
    ensures jumps { (unit : CompilationUnit) (count : ℕ) (p : Program)
        → Elaborates unit count (Ok p) → AllJumpsGoOut p }
    ensures tests { (unit : CompilationUnit) (count : ℕ) (p : Program)
        → Elaborates unit count (Ok p) → AllReach p }
    ensures as_far { (unit : CompilationUnit) (count : ℕ) (p : Program)
        → Elaborates unit count (Ok p) → AllTestsReachAsFar p }
{}

/// In the program of a well-formed tree of at most 1,048,576 tokens no `&&`, `||` or `?:` has the site of a statement with a test:
/// the one has that of its sign, the other that of its word.
pub fn tests_stand_apart()
    ensures { (tree : Ast) → WellFormed tree → length (tokens tree) ≤ token_limit
        → (count : ℕ) (p : Program) → Elaborates (unit 0 tree) count (Ok p) → TestsStandApart p }
{}
