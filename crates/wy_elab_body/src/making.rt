//! A body that is being made: what is in scope, and its locals so far (JLS 6.3, 14.4). Nothing here reads a statement.

ghost use Rattle.std.specs.Prelude.{◌≡◌, List, [], Ok, option_map, IfOk};
ghost use Rattle.wy_kernel.specs.Table.{constant_value};
ghost use Rattle.wy_constant.specs.Scope.{FixedText, opened, closed, with_last_value};
ghost use Rattle.wy_elab_body.specs.Making.{begun, changed, declaring};
ghost use Rattle.wy_elab_body.specs.Views.{making_of, MakesTo};
ghost use Rattle.wy_syntax.specs.View.{named_of};

use std::alloc::{AllocError, Global};
use wy_constant::{Scope, TypeError};
use wy_elab_expr::Texts;
use wy_kernel::form::Const;
use wy_kernel::types::{Base, Local, Ty};
use wy_syntax::name::Named;
use wy_tree::token::TOKEN_LIMIT;

/// A body so far.
#[derive(Drop)]
pub struct Making {
    pub scope: Scope,
    /// Those that were declared so far, in scope or not, by their numbers.
    pub locals: Vec<Local>,
}

/// A body of a class from its beginning on; the Bind of `this`, if it has one, stands at this site.
#[tactic(auto, unfolding(crate::specs::Making::begun))]
pub fn begun(alloc: Global, class: u32, has_this: bool, site: u32) -> Result<Making, AllocError>
    ensures { IfOk result (λ m. making_of m [] ≡ begun class has_this site) }
{
    let mut locals = Vec::new(alloc);
    if has_this {
        locals.push(Local {
            name: "this".to_string(alloc)?,
            site,
            ty: Ty::Of {
                base: Base::Class(class),
                brackets: 0,
            },
        })?;
    }
    Ok(Making {
        scope: Scope::new(alloc, class, has_this)?,
        locals,
    })
}

impl Making {
    /// Opens a block.
    pub fn open_block(&mut self, texts: &Texts) -> Result<(), TypeError>
        ensures { MakesTo (λ u. u) result (making_of self.new texts.now)
            (changed opened (making_of self.old texts.now)) }
    {
        Ok(self.scope.open()?)
    }

    /// Closes the innermost block.
    pub fn close_block(&mut self, texts: &Texts)
        ensures { changed closed (making_of self.old texts.now)
            ≡ Ok (tt, making_of self.new texts.now) }
    {
        self.scope.close()
    }

    /// Says which value the variable has that was declared last.
    pub fn give_value(&mut self, texts: &Texts, constant: Option<Const>)
        ensures { changed (with_last_value (option_map constant_value constant))
            (making_of self.old texts.now) ≡ Ok (tt, making_of self.new texts.now) }
    {
        self.scope.give_value(constant)
    }

    /// Declares a variable that is no constant, and gives its number.
    #[tactic(auto, unfolding(crate::specs::Making::declaring))]
    pub fn declare(
        &mut self,
        alloc: Global,
        name: &Named,
        ty: Ty,
        is_fixed: bool,
    ) -> Result<u32, TypeError>
        ensures { (texts : List FixedText) → MakesTo (λ n. n) result (making_of self.new texts)
            (declaring (named_of name.now) ty is_fixed (making_of self.old texts)) }
    {
        if self.scope.locals() > TOKEN_LIMIT {
            return Err(TypeError::NoMemory);
        }
        let number = self
            .scope
            .declare(name.name.as_str(), &ty, is_fixed, None, name.token)?;
        self.locals.push(Local {
            name: name.name.clone()?,
            site: name.token,
            ty,
        })?;
        Ok(number)
    }
}
