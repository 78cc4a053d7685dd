//! The bodies of a class that grow member by member: that of its initializer, and `<fields>` (JLS 8.3.2, 8.6, 8.7).

ghost use Rattle.std.specs.Prelude.{◌≡◌, List, [], IfOk, OnOk, map, option_map};
ghost use Rattle.wy_constant.specs.Scope.{FixedText};
ghost use Rattle.wy_elab_expr.specs.Views.{GetsTo};
ghost use Rattle.wy_elab_body.specs.Bodies.{field_initials, implied_body, initializer_block, nothing_yet};
ghost use Rattle.wy_elab_stmt.specs.Classes.{grown, none_yet, with_body};
ghost use Rattle.wy_elab_body.specs.Statements.{Setting as PlainSetting};
ghost use Rattle.wy_elab_stmt.specs.ClassViews.{growing_of, growth_of};
ghost use Rattle.wy_elab_body.specs.Views.{IsSetting};
ghost use Rattle.wy_kernel.specs.View.{body_of};
ghost use Rattle.wy_syntax.specs.View.{block_of, class_of, declarator_of, type_seen};

use crate::fields::field_initials;
use std::alloc::{AllocError, Global};
use wy_constant::TypeError;
use wy_elab_body::body::implied;
use wy_elab_body::field::initializer_block;
use wy_elab_body::make;
use wy_elab_body::making::{Making, begun};
use wy_elab_body::place::Role;
use wy_elab_body::setting::Setting;
use wy_elab_expr::Texts;
use wy_kernel::form::{Body, Stmt};
use wy_syntax::declaration::ClassSyntax;
use wy_syntax::name::WrittenType;
use wy_syntax::statement::{Block, Declarator};

/// The body of `<fields>` or of a class's initializer, so far.
#[derive(Drop)]
pub struct Growing {
    pub making: Making,
    pub parts: Vec<Stmt>,
}

/// A body of a class with nothing in it yet.
pub fn nothing_yet(
    alloc: Global,
    class: u32,
    has_this: bool,
    site: u32,
) -> Result<Growing, AllocError>
    ensures { IfOk result (λ g. growing_of g [] ≡ nothing_yet class has_this site) }
{
    Ok(Growing {
        making: begun(alloc, class, has_this, site)?,
        parts: Vec::new(alloc),
    })
}

impl Growing {
    /// Puts what a block becomes behind what is there.
    #[tactic(auto, unfolding(wy_elab_body::specs::Making::resumed))]
    pub fn add_block(
        &mut self,
        setting: &Setting,
        texts: &mut Texts,
        class: &ClassSyntax,
        role: Role,
        b: &Block,
    ) -> Result<(), TypeError>
        ensures { (w : PlainSetting) (stale : List FixedText) → IsSetting setting.now w → GetsTo
            (λ u. growing_of self.new texts.new) result texts.new (grown (growing_of self.old stale)
            (initializer_block w (class_of class.now) role (block_of b.now)) texts.old) }
    {
        let mut more = initializer_block(setting, &mut self.making, texts, class, role, b)?;
        self.parts.append(&mut more)?;
        Ok(())
    }

    /// Puts what the initializers of fields become behind what is there.
    #[tactic(auto, unfolding(wy_elab_body::specs::Making::resumed))]
    pub fn add_fields(
        &mut self,
        setting: &Setting,
        texts: &mut Texts,
        class: u32,
        is_static: bool,
        ty: &WrittenType,
        all: &[Declarator],
    ) -> Result<(), TypeError>
        ensures { (w : PlainSetting) (stale : List FixedText)
            → IsSetting setting.now w → GetsTo (λ u. growing_of self.new texts.new) result texts.new
            (grown (growing_of self.old stale) (field_initials w class is_static (type_seen ty.now)
            (map declarator_of all.now)) texts.old) }
    {
        let mut more = field_initials(setting, &self.making, texts, class, is_static, ty, all)?;
        self.parts.append(&mut more)?;
        Ok(())
    }

    /// The whole body, which stands at the name of its class.
    #[tactic(auto, using(wy_elab_body::proofs::Blocks::row_is))]
    pub fn implied_body(self, setting: &Setting, class: &ClassSyntax, role: Role) -> Body
        ensures { (w : PlainSetting) (stale : List FixedText) → IsSetting setting.now w
            → body_of result ≡ implied_body w (class_of class.now) role (growing_of self stale) }
    {
        let site = class.name.token;
        Body {
            block: implied(setting, site, role, make::block(self.parts)),
            locals: self.making.locals,
            end: site,
        }
    }
}

/// A class so far: the bodies of its members that are methods or constructors, in order, and the two that grow.
#[derive(Drop)]
pub struct Growth {
    pub initializer: Growing,
    pub fields: Growing,
    pub bodies: Vec<Option<Body>>,
}

/// A class of whose members none is made yet.
pub fn none_yet(alloc: Global, number: u32, class: &ClassSyntax) -> Result<Growth, AllocError>
    ensures { IfOk result (λ g. growth_of g [] [] ≡ none_yet number (class_of class.now)) }
{
    let site = class.name.token;
    Ok(Growth {
        initializer: nothing_yet(alloc, number, false, site)?,
        fields: nothing_yet(alloc, number, true, site)?,
        bodies: Vec::new(alloc),
    })
}

impl Growth {
    /// Puts the body of a method or a constructor behind the others.
    pub fn add(&mut self, body: Option<Body>) -> Result<(), AllocError>
        ensures { OnOk result ((first second : List FixedText) → growth_of self.new first second
            ≡ with_body (growth_of self.old first second) (option_map body_of body)) }
    {
        Ok(self.bodies.push(body)?)
    }
}
