ghost use Rattle.std.specs.List.{list_all};
ghost use Rattle.std.specs.Prelude.{◌≡◌};
ghost use Rattle.type_table.specs.Found.{Finds};
ghost use Rattle.listener_check.specs.Values.{is_field, is_left, is_root, is_path_of, is_path, sign_naming, links_naming, form_of, naming_of, duration_naming, is_astray, named_value};

use crate::reader::{Reader, is_among};
use epl_tree::{Expr, ExprNode, Links, Operator, Suffix, SuffixNode, Suffixes};
use epl_values::{Shape, Texts};
use expr_check::judge;
use expr_rules::{Asked, Asks};
use type_table::Refusal;
use typed_program::TypedExpr;

/// How an expression names names that its event expression binds.
#[derive(Clone, Copy, Debug, PartialEq, Eq)]
pub enum Naming {
    /// Not at all.
    Free,
    /// It is a path of fields from one.
    Path,
    /// Such a path plus what names none.
    Plus,
    /// Such a path minus what names none.
    Minus,
    /// In another form.
    Astray,
}

#[tactic(auto, unfolding(crate::specs::Values::is_field))]
fn is_field(suffix: &Suffix) -> bool
    ensures { result ≡ is_field suffix.now }
{
    match &suffix.node {
        SuffixNode::Field(_) => true,
        SuffixNode::Method(..) => false,
        SuffixNode::Index(_) => false,
    }
}

fn all_fields(suffixes: &Suffixes) -> bool
    ensures { result ≡ list_all is_field suffixes.now }
{
    suffixes.as_slice().iter().all(|suffix| is_field(suffix))
}

fn sign_naming(operator: Operator) -> Naming
    ensures { result ≡ sign_naming operator }
{
    match operator {
        Operator::Add => Naming::Plus,
        Operator::Subtract => Naming::Minus,
        _ => Naming::Astray,
    }
}

fn is_astray(naming: Naming) -> bool
    ensures { result ≡ is_astray naming }
{
    match naming {
        Naming::Astray => true,
        _ => false,
    }
}

impl Reader<'_> {
    fn is_left(&self, left: &Texts, name: &str) -> bool
        ensures { result ≡ is_left self.now.scope.now self.now.inner.now left.now name.now }
    {
        self.is_own(name) && is_among(left, name)
    }

    #[tactic(auto, unfolding(crate::specs::Values::is_root))]
    fn is_root(&self, left: &Texts, tree: &Expr) -> bool
        ensures { result ≡ is_root self.now.scope.now self.now.inner.now left.now tree.now }
    {
        match &tree.node {
            ExprNode::Name(name) => self.is_left(left, name.as_str()),
            _ => false,
        }
    }

    fn is_path_of(&self, left: &Texts, first: &Expr, suffixes: &Suffixes) -> bool
        ensures { result ≡ is_path_of self.now.scope.now self.now.inner.now left.now first.now suffixes.now }
    {
        self.is_root(left, first) && all_fields(suffixes)
    }

    #[tactic(auto, unfolding(crate::specs::Values::is_path))]
    fn is_path(&self, left: &Texts, tree: &Expr) -> bool
        ensures { result ≡ is_path self.now.scope.now self.now.inner.now left.now tree.now }
    {
        match &tree.node {
            ExprNode::Postfix(first, suffixes) => self.is_path_of(left, first.get(), suffixes),
            _ => false,
        }
    }

    fn links_naming(&self, left: &Texts, first: &Expr, links: &Links) -> Naming
        ensures { result ≡ links_naming self.now.scope.now self.now.inner.now left.now first.now links.now }
    {
        match links.as_slice() {
            [link] => {
                if self.is_path(left, first) && !self.mentions(&link.operand) {
                    sign_naming(link.operator)
                } else {
                    Naming::Astray
                }
            }
            _ => Naming::Astray,
        }
    }

    #[tactic(auto, unfolding(crate::specs::Values::form_of))]
    fn form_of(&self, left: &Texts, integer: bool, tree: &Expr) -> Naming
        ensures { result ≡ form_of self.now.scope.now self.now.inner.now left.now integer tree.now }
    {
        match &tree.node {
            ExprNode::Postfix(first, suffixes) => {
                if self.is_path_of(left, first.get(), suffixes) {
                    Naming::Path
                } else {
                    Naming::Astray
                }
            }
            ExprNode::Sum(first, links) => {
                if integer {
                    self.links_naming(left, first.get(), links)
                } else {
                    Naming::Astray
                }
            }
            _ => Naming::Astray,
        }
    }

    /// How an operand names bound names, where these ones stand in left sides around it.
    pub fn naming_of(&self, left: &Texts, integer: bool, tree: &Expr) -> Naming
        ensures { result ≡ naming_of self.now.scope.now self.now.inner.now left.now integer tree.now }
    {
        if self.mentions(tree) {
            self.form_of(left, integer, tree)
        } else {
            Naming::Free
        }
    }

    /// How a duration names bound names.
    pub fn duration_naming(&self, tree: &Expr) -> Naming
        ensures { result ≡ duration_naming self.now.scope.now self.now.inner.now tree.now }
    {
        if self.mentions(tree) {
            Naming::Astray
        } else {
            Naming::Free
        }
    }

    /// An expression of a shape that names bound names in a way.
    #[tactic(auto, unfolding(crate::specs::Values::named_value))]
    pub fn named_value(
        &self,
        naming: Naming,
        shape: &Shape,
        tree: &Expr,
    ) -> Result<TypedExpr, Refusal>
        ensures { Finds result (named_value self.now.table.now self.now.inner.now naming shape.now tree.now) }
    {
        let asked = Asked {
            asks: Asks::Exactly(shape),
            path: false,
            astray: is_astray(naming),
        };
        judge(self.alloc, self.table, self.inner, tree, asked)
    }
}
