//! The products of the words of one length.

ghost use Rattle.std.specs.Prelude.{◌≡◌, ◌<◌, ◌≤◌, ◌++◌, ◌∷◌, ℕ, suc, List, [], IfOk, MatchOption, MatchResult, length, map};
ghost use Rattle.std.specs.List.{Contains};
ghost use Rattle.nichols_tensor.specs.Positions.{word_at};
ghost use Rattle.nichols_tensor.specs.Words.{up_to};
ghost use Rattle.nichols_braid.specs.declared.TheConstants.{MOST_PRODUCTS};
ghost use Rattle.nichols_braid.specs.declared.products.ProductsFault.TheVariants.{Wide, Memory};
ghost use Rattle.nichols_braid.specs.Product.{product_after};
ghost use Rattle.nichols_braid.specs.Products.{each_once, products};

use crate::{Braid, MOST_PRODUCTS, Product};
use std::alloc::{AllocError, AllocFailed, Global};
use std::collections::BTreeMap;
use std::marker::Model;

/// Why the products of the next length aren't listed.
#[derive(Clone, Copy, Debug, PartialEq, Eq)]
pub enum ProductsFault {
    /// There are more than `MOST_PRODUCTS` of them.
    Wide,
    /// Want of memory.
    Memory,
}

impl From<AllocError> for ProductsFault {
    ghost from_gives = { λ _ fault. fault ≡ Memory };

    fn from(_error: AllocError) -> ProductsFault {
        ProductsFault::Memory
    }
}

impl<T: Drop> From<AllocFailed<T>> for ProductsFault {
    ghost from_gives = { λ _ fault. fault ≡ Memory };

    fn from(_error: AllocFailed<T>) -> ProductsFault {
        ProductsFault::Memory
    }
}

/// The products of the words of one length, each once, in the order of the first word that has it.
///
/// The place of a product is found without a walk along the list.
#[derive(Drop)]
pub struct Products {
    items: Vec<Product>,
    places: BTreeMap<Product, usize>,
}

impl Model for Products {
    ghost use Rattle.std.specs.Prelude.{ℕ, List};
    ghost use Rattle.nichols_braid.specs.ProductIndex.{IsIndexed};

    ghost Value = { List (List ℕ) };

    ghost view = { λ p. p.items.items };

    ghost invariant = { λ p. IsIndexed p.items.items p.places };
}

impl Products {
    /// The product of the empty word.
    pub fn first(alloc: Global, braid: &Braid) -> Result<Products, AllocError>
        ensures { IfOk result (λ ps. ps ≡ products braid.now 0) }
    {
        let _braid = braid.field();
        Products::none(alloc).with_new(Product::identity(braid.letters()))
    }

    /// The products of the words of one letter more, if they are at most [`MOST_PRODUCTS`].
    pub fn next(&self, alloc: Global, braid: &Braid) -> Result<Products, ProductsFault>
        requires { (m : ℕ) × (self.now ≡ products braid.now m) }
        ensures { (m : ℕ) → self.now ≡ products braid.now m → MatchResult result
            (λ ps. (ps ≡ products braid.now (suc m)) × (length ps ≤ MOST_PRODUCTS))
            (λ e. e ≡ Wide → MOST_PRODUCTS < length (products braid.now (suc m))) }
    {
        let _braid = braid.field();
        let mut out = Products::none(alloc);
        for k in 0..self.len() {
            out = out.with_followed(braid, self.at(k))?;
        }
        let _few = out.len();
        Ok(out)
    }

    /// The number of products.
    pub fn len(&self) -> usize
        ensures value { result ≡ length self.now }
        ensures limit { length self.now ≤ MOST_PRODUCTS }
        ensures once { (i j : ℕ) → i < length self.now → j < length self.now → word_at self.now i ≡ word_at self.now j → i ≡ j }
    {
        self.items.len()
    }

    /// The product at index k, which counts from 0.
    pub fn at(&self, k: usize) -> &Product
        requires { k < length self.now }
        ensures { result.now ≡ word_at self.now k }
    {
        &self.items[k]
    }

    /// The index of a product, which counts from 0, if it is in the list.
    pub fn find(&self, product: &Product) -> Option<usize>
        ensures { MatchOption result (Contains self.now product.now → ⊥) (λ k. (k < length self.now) × (word_at self.now k ≡ product.now)) }
    {
        self.places.get(product).copied()
    }

    /// An equal list.
    pub fn copy(&self, alloc: Global) -> Result<Products, AllocError>
        ensures { IfOk result (λ ps. ps ≡ self.now) }
    {
        let mut out = Products::none(alloc);
        for k in 0..self.len() {
            out = out.with_new(*self.at(k))?;
        }
        Ok(out)
    }

    /// No products.
    fn none(alloc: Global) -> Products
        ensures { result ≡ [] }
    {
        Products {
            items: Vec::new(alloc),
            places: BTreeMap::new(alloc),
        }
    }

    /// These products, with one behind that isn't among them.
    fn with_new(self, product: Product) -> Result<Products, AllocError>
        requires room { length self < MOST_PRODUCTS }
        requires new { Contains self product → ⊥ }
        ensures { IfOk result (λ ps. ps ≡ self ++ product ∷ []) }
    {
        let Products {
            mut items,
            mut places,
        } = self;
        let _none = places.insert(product, items.len())?;
        items.push(product)?;
        Ok(Products { items, places })
    }

    /// These products, with one behind where it isn't among them.
    fn with(self, product: Product) -> Result<Products, ProductsFault>
        ensures { (gs : List (List ℕ)) → self ≡ each_once gs → MatchResult result
            (λ ps. ps ≡ each_once (gs ++ product ∷ []))
            (λ e. e ≡ Wide → MOST_PRODUCTS < length (each_once (gs ++ product ∷ []))) }
    {
        if self.find(&product).is_some() {
            return Ok(self);
        }
        if self.len() == MOST_PRODUCTS {
            return Err(ProductsFault::Wide);
        }
        Ok(self.with_new(product)?)
    }

    /// These products, with the products after each letter behind, where they aren't among them.
    fn with_followed(self, braid: &Braid, product: &Product) -> Result<Products, ProductsFault>
        requires { length product.now ≡ braid.now.letters }
        ensures { (gs : List (List ℕ)) → self ≡ each_once gs → MatchResult result
            (λ ps. ps ≡ each_once (gs ++ map (λ a. product_after braid.now a product.now) (up_to braid.now.letters)))
            (λ e. e ≡ Wide → MOST_PRODUCTS < length (each_once (gs ++ map (λ a. product_after braid.now a product.now) (up_to braid.now.letters)))) }
    {
        let mut out = self;
        for a in 0..braid.letters() {
            out = out.with(product.times(braid, a + 1))?;
        }
        Ok(out)
    }
}
