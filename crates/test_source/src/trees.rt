//! Trees of small texts, a production each. How deep a tree and how many brackets a type may have is shown by tools/checks.

use crate::source::joined;
use std::alloc::{AllocError, Global};
use std::test::Fail;
use wy_lexer::lex;
use wy_parser::parse::parse;
use wy_tree::token::Token;
use wy_tree::tree::{Form, Tree};

fn form_name(form: Form) -> &'static str {
    match form {
        Form::Unit => "Unit",
        Form::Class => "Class",
        Form::Interface => "Interface",
        Form::Mod => "Mod",
        Form::Member => "Member",
        Form::Params => "Params",
        Form::Param => "Param",
        Form::Throws => "Throws",
        Form::Result => "Result",
        Form::TypeNode => "Type",
        Form::Decls => "Decls",
        Form::Decl => "Decl",
        Form::Init => "Init",
        Form::Block => "Block",
        Form::Stmt => "Stmt",
        Form::ForInit => "ForInit",
        Form::Catch => "Catch",
        Form::Expr => "Expr",
        Form::Cond => "Cond",
        Form::Binary => "Binary",
        Form::Unary => "Unary",
        Form::Cast => "Cast",
        Form::Postfix => "Postfix",
        Form::Primary => "Primary",
        Form::New => "New",
        Form::Args => "Args",
    }
}

fn show_token(out: &mut String, token: &Token) -> Result<(), AllocError> {
    match token {
        Token::Word(text) | Token::Key(text) | Token::Sign(text) => out.push_str(text.as_str()),
        Token::Int { value, .. } => out.push_str(if *value == 1 { "1" } else { "2147483648" }),
        _ => out.push_str("?"),
    }
}

#[cycle(show)]
#[tactic(auto, using(wy_tree::proofs::Views::view_leaf, wy_tree::proofs::Views::view_node))]
fn show(out: &mut String, tree: &Tree) -> Result<(), AllocError> {
    match tree {
        Tree::Leaf(token) => show_token(out, token),
        Tree::Node { form, parts } => {
            out.push_str("(")?;
            out.push_str(form_name(*form))?;
            show_all(out, parts)?;
            out.push_str(")")
        }
    }
}

#[cycle(show)]
fn show_all(out: &mut String, parts: &[Tree]) -> Result<(), AllocError> {
    let mut left = parts;
    while let [first, behind @ ..] = left {
        out.push_str(" ")?;
        show(out, first)?;
        left = behind;
    }
    Ok(())
}

/// The tree of a text as a text, or `no tree`.
fn tree_in(alloc: Global, text: &str) -> Result<String, Fail> {
    let mut out = String::new(alloc);
    if text.len() > 1000 {
        return Err(Fail::new("a long text"));
    }
    let tokens = lex(alloc, text.as_bytes())?;
    if tokens.len() > 1000 {
        return Err(Fail::new("many tokens"));
    }
    match parse(alloc, tokens.as_slice()) {
        Ok(tree) => show(&mut out, &tree)?,
        Err(_) => out.push_str("no tree")?,
    }
    Ok(out)
}

static EXPRESSIONS: [(&str, &str); 26] = [
    ("( a ) - 1", "(Binary (Primary ( a )) - 1)"),
    ("( int ) - 1", "(Cast ( int ) (Unary - 1))"),
    ("( a ) b", "(Cast ( a ) b)"),
    ("( a ) ( b )", "(Cast ( a ) (Primary ( b )))"),
    ("( a [ ] ) b", "(Cast ( (Type a [ ]) ) b)"),
    ("( a ) ! b", "(Cast ( a ) (Unary ! b))"),
    ("( a [ ] ) - b", "no tree"),
    ("a - b - c", "(Binary (Binary a - b) - c)"),
    ("a + b * c", "(Binary a + (Binary b * c))"),
    (
        "a || b && c | d ^ e & f == g < h << i",
        "(Binary a || (Binary b && (Binary c | (Binary d ^ (Binary e & (Binary f == (Binary g < (Binary h << i))))))))",
    ),
    ("x ++ ++", "(Postfix x ++ ++)"),
    ("++ - ~ x", "(Unary ++ (Unary - (Unary ~ x)))"),
    ("x instanceof A", "(Binary x instanceof A)"),
    ("x instanceof A - 1", "no tree"),
    ("x instanceof int", "no tree"),
    ("a ? b : c ? d : e", "(Cond a ? b : (Cond c ? d : e))"),
    ("a = b += c", "(Expr a = (Expr b += c))"),
    ("a + b = c", "no tree"),
    ("- 2147483648", "(Unary - 2147483648)"),
    ("- ( 2147483648 )", "no tree"),
    ("- 2147483648 ++", "no tree"),
    (
        "a . b ( c ) [ 1 ] . d",
        "(Primary (Primary (Primary a . b (Args ( c ))) [ 1 ]) . d)",
    ),
    ("super . f ( )", "(Primary super . f (Args ( )))"),
    (
        "new A ( this , null ) . b",
        "(Primary (New new A (Args ( this , null ))) . b)",
    ),
    ("new int [ 1 ] [ ] [ ]", "(New new int [ 1 ] [ ] [ ])"),
    ("new int [ ] { 1 , { , } , } [ 1 ]", "no tree"),
];

static STATEMENTS: [(&str, &str); 26] = [
    (";", ";"),
    ("{ int a ; }", "(Block { (Stmt int a ;) })"),
    (
        "final A b [ ] = { } , c = new A [ ] { 1 , } ;",
        "(Stmt final A (Decls (Decl b [ ] = (Init { })) , (Decl c = (New new A [ ] { 1 , }))) ;)",
    ),
    ("a [ ] b ;", "(Stmt (Type a [ ]) b ;)"),
    ("a [ 1 ] = b ;", "(Stmt (Expr (Primary a [ 1 ]) = b) ;)"),
    ("a . b ( ) ;", "(Stmt (Primary a . b (Args ( ))) ;)"),
    ("-- a ;", "(Stmt (Unary -- a) ;)"),
    ("new A ( ) ;", "(Stmt (New new A (Args ( ))) ;)"),
    ("a + b ;", "no tree"),
    (
        "if ( a ) if ( b ) ; else ;",
        "(Stmt if ( a ) (Stmt if ( b ) ; else ;))",
    ),
    (
        "if ( a ) while ( b ) if ( c ) ; else ; else ;",
        "(Stmt if ( a ) (Stmt while ( b ) (Stmt if ( c ) ; else ;)) else ;)",
    ),
    ("if ( a ) int b ;", "no tree"),
    ("while ( a ) { }", "(Stmt while ( a ) (Block { }))"),
    (
        "do a ++ ; while ( b ) ;",
        "(Stmt do (Stmt (Postfix a ++) ;) while ( b ) ;)",
    ),
    ("for ( ; ; ) ;", "(Stmt for ( ; ; ) ;)"),
    (
        "for ( int i = 1 ; i < n ; i ++ , j -- ) ;",
        "(Stmt for ( (ForInit int (Decl i = 1)) ; (Binary i < n) ; (Postfix i ++) , (Postfix j --) ) ;)",
    ),
    (
        "for ( i = 1 , j = 1 ; ; ) ;",
        "(Stmt for ( (ForInit (Expr i = 1) , (Expr j = 1)) ; ; ) ;)",
    ),
    ("a : break a ;", "(Stmt a : (Stmt break a ;))"),
    ("continue ;", "(Stmt continue ;)"),
    ("return ;", "(Stmt return ;)"),
    ("return a ? b : c ;", "(Stmt return (Cond a ? b : c) ;)"),
    ("throw new A ( ) ;", "(Stmt throw (New new A (Args ( ))) ;)"),
    (
        "try { } catch ( final A b ) { } catch ( C d ) { } finally { }",
        "(Stmt try (Block { }) (Catch catch ( final A b ) (Block { })) (Catch catch ( C d ) (Block { })) finally (Block { }))",
    ),
    (
        "try { } finally { }",
        "(Stmt try (Block { }) finally (Block { }))",
    ),
    ("try { }", "no tree"),
    ("switch ( a ) { }", "no tree"),
];

static PROGRAMS: [(&str, &str); 12] = [
    ("", "(Unit)"),
    (";", ";"),
    (
        "class A { } ; interface B { }",
        "(Unit (Class class A { }) ; (Interface interface B { }))",
    ),
    (
        "public abstract class A extends B implements C , D { ; }",
        "(Class public abstract class A extends B implements C , D { ; })",
    ),
    (
        "interface A extends B , C { ; public int f ( ) throws D , E ; void g ( final int a [ ] , A b ) ; }",
        "(Interface interface A extends B , C { ; public int f (Params ( )) (Throws throws D , E) ; void g (Params ( (Param final int a [ ]) , (Param A b) )) ; })",
    ),
    (
        "class A { { } static { } }",
        "(Class class A { (Block { }) (Member static (Block { })) })",
    ),
    ("class A { final { } }", "no tree"),
    (
        "class A { @ Override public int [ ] f ( ) { } abstract void g ( ) ; }",
        "(Class class A { (Member (Mod @ Override) public (Type int [ ]) f (Params ( )) (Block { })) (Member abstract void g (Params ( )) ;) })",
    ),
    (
        "class A { A ( int a ) throws B { this ( 1 ) ; int b ; } private A ( ) { super . f ( ) ; } }",
        "(Class class A { (Member A (Params ( (Param int a) )) (Throws throws B) { this (Args ( 1 )) ; (Stmt int b ;) }) (Member private A (Params ( )) { (Stmt (Primary super . f (Args ( ))) ;) }) })",
    ),
    (
        "class A { static A a , b = 1 ; }",
        "(Class class A { (Member static A (Decls a , (Decl b = 1)) ;) })",
    ),
    ("class A { int f ; ", "no tree"),
    ("class A { } }", "no tree"),
];

/// What stands before and behind a text, and before and behind its tree.
struct Around {
    text: (&'static str, &'static str),
    tree: (&'static str, &'static str),
}

static VALUE: Around = Around {
    text: ("class A { int f = ", " ; }"),
    tree: ("(Class class A { (Member int (Decl f = ", ") ;) })"),
};

static BLOCK: Around = Around {
    text: ("class A { { ", " } }"),
    tree: ("(Class class A { (Block { ", " }) })"),
};

static WHOLE: Around = Around {
    text: ("", ""),
    tree: ("", ""),
};

#[test]
fn texts_have_the_trees_of_their_productions(rt: HostRuntime) -> Result<(), Fail> {
    let tables = [
        (&VALUE, EXPRESSIONS.as_slice()),
        (&BLOCK, STATEMENTS.as_slice()),
        (&WHOLE, PROGRAMS.as_slice()),
    ];
    for (around, rows) in tables {
        for (text, tree) in rows {
            let program = joined(rt.alloc(), &[around.text.0, text, around.text.1])?;
            let wanted = joined(rt.alloc(), &[around.tree.0, tree, around.tree.1])?;
            let found = tree_in(rt.alloc(), program.as_str())?;
            assert!(rt;
                found == wanted || (found.as_str() == *tree && *tree == "no tree"),
                "{text}"
            );
        }
    }
    Ok(())
}
