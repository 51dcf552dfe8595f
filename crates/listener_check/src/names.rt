ghost use Rattle.std.specs.Prelude.{◌≡◌};
ghost use Rattle.listener_check.specs.Bound.{is_own};
ghost use Rattle.listener_check.specs.Names.{mentions, some_mention, some_link_mentions, some_suffix_mentions, some_entry_mentions};

use crate::reader::Reader;
use epl_tree::{Entries, Expr, ExprNode, Exprs, Links, SuffixNode, Suffixes};

impl Reader<'_> {
    /// Whether an expression names a name that the event expression binds.
    #[cycle(mentions)]
    pub fn mentions(&self, tree: &Expr) -> bool
        ensures { result ≡ mentions (is_own self.now.scope.now self.now.inner.now) tree.now }
    {
        match &tree.node {
            ExprNode::Or(first, rest) => self.mentions(first.get()) || self.any_mentions(rest),
            ExprNode::Xor(first, rest) => self.mentions(first.get()) || self.any_mentions(rest),
            ExprNode::And(first, rest) => self.mentions(first.get()) || self.any_mentions(rest),
            ExprNode::Not(operand) => self.mentions(operand.get()),
            ExprNode::Compare(left, _, right) => {
                self.mentions(left.get()) || self.mentions(right.get())
            }
            ExprNode::Sum(first, links) => {
                self.mentions(first.get()) || self.any_link_mentions(links)
            }
            ExprNode::Product(first, links) => {
                self.mentions(first.get()) || self.any_link_mentions(links)
            }
            ExprNode::Minus(operand) => self.mentions(operand.get()),
            ExprNode::Postfix(first, suffixes) => {
                self.mentions(first.get()) || self.any_suffix_mentions(suffixes)
            }
            ExprNode::Name(name) => self.is_own(name.as_str()),
            ExprNode::Call(_, arguments) => self.any_mentions(arguments),
            ExprNode::Sequence(items) => self.any_mentions(items),
            ExprNode::Dictionary(entries) => self.any_entry_mentions(entries),
            ExprNode::Context(arguments) => self.any_mentions(arguments),
            ExprNode::Group(inner) => self.mentions(inner.get()),
            ExprNode::Integer(_) => false,
            ExprNode::Quoted(_) => false,
            ExprNode::Boolean(_) => false,
            ExprNode::New(_) => false,
            ExprNode::ContextCurrent => false,
        }
    }

    #[cycle(mentions)]
    fn any_mentions(&self, trees: &Exprs) -> bool
        ensures { result ≡ some_mention (is_own self.now.scope.now self.now.inner.now) trees.now }
    {
        for tree in trees.as_slice() {
            if self.mentions(tree) {
                return true;
            }
        }
        false
    }

    #[cycle(mentions)]
    fn any_link_mentions(&self, links: &Links) -> bool
        ensures { result ≡ some_link_mentions (is_own self.now.scope.now self.now.inner.now) links.now }
    {
        for link in links.as_slice() {
            if self.mentions(&link.operand) {
                return true;
            }
        }
        false
    }

    #[cycle(mentions)]
    fn any_suffix_mentions(&self, suffixes: &Suffixes) -> bool
        ensures { result ≡ some_suffix_mentions (is_own self.now.scope.now self.now.inner.now) suffixes.now }
    {
        for suffix in suffixes.as_slice() {
            let found = match &suffix.node {
                SuffixNode::Field(_) => false,
                SuffixNode::Method(_, arguments) => self.any_mentions(arguments),
                SuffixNode::Index(index) => self.mentions(index.get()),
            };
            if found {
                return true;
            }
        }
        false
    }

    #[cycle(mentions)]
    fn any_entry_mentions(&self, entries: &Entries) -> bool
        ensures { result ≡ some_entry_mentions (is_own self.now.scope.now self.now.inner.now) entries.now }
    {
        for entry in entries.as_slice() {
            if self.mentions(&entry.key) || self.mentions(&entry.value) {
                return true;
            }
        }
        false
    }
}
